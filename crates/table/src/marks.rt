// The own marks of all sites, gathered place by place.
ghost use Rattle.std.specs.Prelude.{◌≡◌, ◌/◌, ◌%◌, get_or};
ghost use Rattle.kit.specs.Lists.{listed};
ghost use Rattle.vote.specs.Data.{is_ok_vote, is_other, vote_at};
ghost use Rattle.table.specs.Parts.{lasts_of, time_right, row_set, row_sets};
ghost use Rattle.table.specs.Places.{no_site};

use vote::consider::{is_ok, is_other};
use vote::data::{Mark, Site};
use vote::voters::voters_of;

// The last t of each site.
pub fn lasts_of(sites: &[Site; 7]) -> [u32; 7]
    ensures { result ≡ lasts_of sites.now }
{
    std::array::from_fn(|k| sites[k].last)
}

// Whether the t of a stamp is at most its site's last; a stamp of digit 0 is asked of the first site.
#[tactic(auto, unfolding(crate::specs::Parts::time_right))]
pub(crate) fn is_in_time(lasts: &[u32; 7], stamp: u64) -> bool
    ensures { result ≡ time_right lasts.now stamp }
{
    let k = usize::from(stamps::digit_of(stamp)).saturating_sub(1);
    stamps::time_of(stamp) <= u64::from(lasts[k])
}

// Stays: two arrays side by side and not one of pairs, since a site's own `oks` and `others` are compared with each as a whole.
// The own marks of all places, kept as a site keeps the voters that it knows, and those of each place as sets.
#[derive(Drop)]
pub(crate) struct Marked {
    pub oks: [bool; 112],
    pub others: [bool; 112],
    pub ok_sets: [u32; 16],
    pub other_sets: [u32; 16],
    ghost ok_sets_are: { ok_sets ≡ row_sets oks },
    ghost other_sets_are: { other_sets ≡ row_sets others },
}

// What each site has marked, as a site keeps the voters that it knows: site u's mark of place p at 7 × p + u.
fn marks_of(sites: &[Site; 7]) -> [Mark; 112]
    ensures { result ≡ listed 112 (λ i. (vote_at (get_or sites.now (i % 7) no_site).votes (i / 7)).mark) }
{
    let mut marks = [Mark::None; 112];
    for (i, mark) in marks.iter_mut().enumerate() {
        *mark = sites[i % 7].votes[i / 7].mark;
    }
    marks
}

// The own marks of all sites.
// Stays: one pass by index; two `marks.map(..)` were proved, but `sound` took 13 in 100 longer, and `array::from_fn` left its goal open at 112 elements.
pub(crate) fn marked_of(sites: &[Site; 7]) -> Marked
    ensures oks { result.oks ≡ listed 112 (λ i. is_ok_vote (vote_at (get_or sites.now (i % 7) no_site).votes (i / 7)).mark) }
    ensures others { result.others ≡ listed 112 (λ i. is_other (vote_at (get_or sites.now (i % 7) no_site).votes (i / 7)).mark) }
{
    let marks = marks_of(sites);
    let mut oks = [false; 112];
    let mut others = [false; 112];
    for (i, mark) in marks.iter().enumerate() {
        oks[i] = is_ok(*mark);
        others[i] = is_other(*mark);
    }
    Marked {
        oks,
        others,
        ok_sets: sets_of(&oks),
        other_sets: sets_of(&others),
    }
}

// The voters of a row as a set of site numbers.
pub(crate) fn set_of(row: &[bool; 7]) -> u32
    ensures { result ≡ row_set row.now }
{
    let mut set = 0;
    for (u, voter) in row.iter().enumerate() {
        set += u32::from(*voter) << u;
    }
    set
}

// Those of each of the 16 places.
fn sets_of(known: &[bool; 112]) -> [u32; 16]
    ensures { result ≡ row_sets known.now }
{
    std::array::from_fn(|p| set_of(&voters_of(known, p as u8)))
}
