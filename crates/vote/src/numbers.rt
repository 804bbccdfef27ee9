// What a site has said of a request as one number, its mark and 8 times its verdict.
// Stays: numbers for kinds, by what may not change: public calls with theorems, for who keeps or sends votes as bytes.
ghost use Rattle.std.specs.Prelude.{◌≡◌};
ghost use Rattle.vote.specs.Numbers.{mark_number, mark_from, verdict_number, verdict_from, vote_number, vote_from};

use crate::data::{Mark, Verdict, Vote};

// The number of a mark.
pub fn mark_number(m: Mark) -> u8
    ensures { result ≡ mark_number m }
{
    match m {
        Mark::None => 0,
        Mark::Deferred => 1,
        Mark::Ok => 2,
        Mark::Dr => 3,
        Mark::Rej => 4,
    }
}

// The mark of a number.
#[tactic(auto, unfolding(crate::specs::Numbers::mark_from))]
pub fn mark_from(c: u8) -> Mark
    ensures { result ≡ mark_from c }
{
    match c {
        0 => Mark::None,
        1 => Mark::Deferred,
        2 => Mark::Ok,
        3 => Mark::Dr,
        _ => Mark::Rej,
    }
}

// The number of a verdict.
pub fn verdict_number(v: Verdict) -> u8
    ensures { result ≡ verdict_number v }
{
    match v {
        Verdict::Open => 0,
        Verdict::Accepted => 1,
        Verdict::Rejected => 2,
    }
}

// The verdict of a number.
#[tactic(auto, unfolding(crate::specs::Numbers::verdict_from))]
pub fn verdict_from(c: u8) -> Verdict
    ensures { result ≡ verdict_from c }
{
    match c {
        0 => Verdict::Open,
        1 => Verdict::Accepted,
        _ => Verdict::Rejected,
    }
}

// The number of a mark and a verdict.
#[tactic(auto, unfolding(crate::specs::Numbers::vote_number), using(crate::proofs::VoteNumbers::mark_small, crate::proofs::VoteNumbers::verdict_small))]
pub fn vote_number(v: Vote) -> u8
    ensures { result ≡ vote_number v }
{
    mark_number(v.mark) + 8 * verdict_number(v.verdict)
}

// The mark and the verdict of a number.
#[tactic(auto, unfolding(crate::specs::Numbers::vote_from))]
pub fn vote_from(c: u8) -> Vote
    ensures { result ≡ vote_from c }
{
    Vote {
        mark: mark_from(c % 8),
        verdict: verdict_from(c / 8),
    }
}
