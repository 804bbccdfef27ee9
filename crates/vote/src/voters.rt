// The voters that a site knows, of each request place: the only functions that see how they are kept.
ghost use Rattle.std.specs.Prelude.{◌≡◌, length};
ghost use Rattle.kit.specs.Range.{all};
ghost use Rattle.vote.specs.Voters.{knows, voters_of, only_voter, join_voters, clear_voters, no_known, no_row, has_voter, no_voters, none_known, are_among, voters_in, voters_known};

// The known voters of place p, site by site.
#[tactic(auto, using(crate::proofs::KnownVoters::row_taken, crate::proofs::KnownVoters::row_of_none))]
pub fn voters_of(known: &[bool; 112], p: u8) -> [bool; 7]
    ensures { result ≡ voters_of known.now p }
{
    let mut voters = [false; 7];
    if p < 16 {
        let at = 7 * usize::from(p);
        voters.copy_from_slice(&known[at..at + 7]);
    }
    voters
}

// Joins voter u of place p to the known ones; nothing changes where there is no such place or voter.
#[tactic(auto, using(crate::proofs::KnownVoters::joined_one, crate::proofs::KnownVoters::joined_nobody))]
pub fn join_voter(known: &mut [bool; 112], p: u8, u: u8)
    ensures { known.new ≡ join_voters known.old p (only_voter u) }
{
    if p < 16 && u < 7 {
        known[7 * usize::from(p) + usize::from(u)] = true;
    }
}

// Joins these voters of place p to the known ones.
#[tactic(auto, using(crate::proofs::KnownVoters::joined_none, crate::proofs::KnownVoters::joined_more, crate::proofs::KnownVoters::joined_over, crate::proofs::KnownVoters::joined_out))]
pub fn join_voters(known: &mut [bool; 112], p: u8, more: &[bool; 7])
    ensures { known.new ≡ join_voters known.old p more.now }
{
    if p < 16 {
        for (u, voter) in more.iter().enumerate() {
            known[7 * usize::from(p) + u] |= *voter;
        }
    }
}

// Forgets the known voters of place p.
#[tactic(auto, using(crate::proofs::KnownVoters::cleared_row, crate::proofs::KnownVoters::cleared_none))]
pub fn clear_voters(known: &mut [bool; 112], p: u8)
    ensures { known.new ≡ clear_voters known.old p }
{
    if p < 16 {
        let at = 7 * usize::from(p);
        known[at..at + 7].fill(false);
    }
}

// Nothing known.
#[tactic(auto, unfolding(crate::specs::Voters::no_known))]
pub fn no_known() -> [bool; 112]
    ensures { result ≡ no_known }
{
    [false; 112]
}

// A row with no voter.
#[tactic(auto, unfolding(crate::specs::Voters::no_row))]
pub fn no_voters() -> [bool; 7]
    ensures { result ≡ no_row }
{
    [false; 7]
}

// Whether voter u is in the row.
#[tactic(auto, unfolding(crate::specs::Voters::has_voter))]
pub fn has_voter(row: &[bool; 7], u: usize) -> bool
    ensures { result ≡ has_voter row.now u }
{
    u < 7 && row[u]
}

// Whether no voter is in the row.
#[tactic(auto, using(crate::proofs::Rows::row_searched))]
pub fn is_no_voter(row: &[bool; 7]) -> bool
    ensures { result ≡ no_voters row.now }
{
    !row.contains(&true)
}

// Whether no voter of place p is known.
#[tactic(auto, unfolding(crate::specs::Voters::none_known))]
pub fn is_none_known(known: &[bool; 112], p: u8) -> bool
    ensures { result ≡ none_known known.now p }
{
    is_no_voter(&voters_of(known, p))
}

// How many voters stand in these seven places. Each is added as 0 or 1.
// Stays: a sum by a loop: `filter` and `count` take a branch a voter, 10.0 s against 5.8 s for the same votes.
fn count_in(row: &[bool]) -> u8
    requires { length row.now ≡ 7 }
    ensures { result ≡ voters_in row.now }
{
    let mut count = 0;
    for voter in row {
        count += u8::from(*voter);
    }
    count
}

// How many voters are in the row.
pub fn count_voters(row: &[bool; 7]) -> u8
    ensures { result ≡ voters_in row.now }
{
    count_in(row)
}

// How many voters of place p are known, counted where they stand.
#[tactic(auto, using(crate::proofs::KnownVoters::counted_at, crate::proofs::KnownVoters::counted_nowhere))]
pub fn count_known(known: &[bool; 112], p: u8) -> u8
    ensures { result ≡ voters_known known.now p }
{
    if p < 16 {
        let at = 7 * usize::from(p);
        return count_in(&known[at..at + 7]);
    }
    0
}

// Whether voter u of place p is known.
#[tactic(auto, unfolding(crate::specs::Voters::knows))]
pub fn is_known(known: &[bool; 112], p: u8, u: usize) -> bool
    ensures { result ≡ knows known.now p u }
{
    p < 16 && u < 7 && known[7 * usize::from(p) + u]
}

// Whether each voter known in a, of any place, is known in b.
// No turn leaves the loop, so that the tests can be made side by side.
#[tactic(auto, using(crate::proofs::KnownVoters::strange_none, crate::proofs::KnownVoters::strange_over))]
pub fn are_known_among(a: &[bool; 112], b: &[bool; 112]) -> bool
    ensures { result ≡ all 16 (λ p. are_among (voters_of a.now p) (voters_of b.now p)) }
{
    let mut strange = false;
    for (known, marked) in a.iter().zip(b) {
        strange |= *known & !*marked;
    }
    !strange
}
