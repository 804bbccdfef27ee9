// Stamps and priority.
#![tactic(auto)]

ghost use Rattle.std.specs.Prelude.{◌≡◌, ◌<◌, ◌^◌, max};
ghost use Rattle.stamps.specs.Stamps.{stamp_of, time_of, digit_of, issued_form, well_formed, largest_time, next_time, higher};
ghost use Rattle.stamps.specs.Issue.{issued};

use refusals::Refusal;

// The last t there is.
const LAST_TIME: u64 = 4_294_967_295;

// The t of a stamp.
pub fn time_of(stamp: u64) -> u64
    ensures { result ≡ time_of stamp }
{
    stamp / 8
}

// The site digit of a stamp.
pub fn digit_of(stamp: u64) -> u8
    ensures { result ≡ digit_of stamp }
{
    (stamp % 8) as u8
}

// The stamp that a site gives at t.
pub fn stamp_of(t: u32, site: u8) -> u64
    ensures { result ≡ stamp_of t site }
{
    8 * u64::from(t) + u64::from(site)
}

// Whether some site of n may have issued the stamp.
#[tactic(auto, unfolding(crate::specs::Stamps::issued_form))]
pub fn is_issued_form(n: u8, stamp: u64) -> bool
    ensures { result ≡ issued_form n stamp }
{
    (1..=LAST_TIME).contains(&time_of(stamp)) && (1..=n).contains(&digit_of(stamp))
}

// Whether the stamp is 0 or some site of n may have issued it.
#[tactic(auto, unfolding(crate::specs::Stamps::well_formed))]
pub fn is_well_formed(n: u8, stamp: u64) -> bool
    ensures { result ≡ well_formed n stamp }
{
    stamp == 0 || is_issued_form(n, stamp)
}

// Whether stamp a has the higher priority: the lower site digit, then the smaller stamp.
#[tactic(auto, unfolding(crate::specs::Stamps::higher))]
pub fn is_higher(a: u64, b: u64) -> bool
    ensures { result ≡ higher a b }
{
    (digit_of(a), a) < (digit_of(b), b)
}

// The largest t in the base stamps of the base items. No t of a stamp has more than 61 bits, so there is room for 1 more.
#[tactic(auto, unfolding(crate::specs::Stamps::largest_time))]
pub fn largest_time(base: u32, stamps: &[u64; 24]) -> u64
    ensures value { result ≡ largest_time base stamps.now }
    ensures small { result < 2 ^ 61 }
{
    let mut top = 0;
    for (item, stamp) in stamps.iter().enumerate() {
        if sets::has(base, item) {
            top = top.max(time_of(*stamp));
        }
    }
    top
}

// The next t of a site: the largest of the clock, 1 + the largest t in the base stamps, 1 + its last t.
#[tactic(auto, unfolding(crate::specs::Stamps::next_time))]
pub fn next_time(clock: u32, last: u32, base: u32, stamps: &[u64; 24]) -> u64
    ensures { result ≡ next_time clock last base stamps.now }
{
    let based = 1 + largest_time(base, stamps);
    let own = 1 + u64::from(last);
    based.max(own).max(u64::from(clock))
}

// A stamp that is given, and its t.
#[derive(Clone, Copy, Debug, PartialEq, Eq)]
pub struct Given {
    pub stamp: u64,
    pub t: u32,
}

// What a site answers that is to issue a stamp.
// Stays: five parameters, since document 01's formula names each; a struct of them would be made for this one call and is no plainer.
#[tactic(auto, unfolding(crate::specs::Issue::issued))]
pub fn issue_stamp(
    site: u8,
    clock: u32,
    last: u32,
    base: u32,
    stamps: &[u64; 24],
) -> Result<Given, Refusal>
    ensures { result ≡ issued site clock last base stamps.now }
{
    let t = u32::try_from(next_time(clock, last, base, stamps)).map_err(|_| Refusal::TimePast)?;
    Ok(Given {
        stamp: stamp_of(t, site),
        t,
    })
}
