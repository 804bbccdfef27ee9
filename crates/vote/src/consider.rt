// Considering a request: document 01's five rules.
ghost use Rattle.std.specs.Prelude.{◌≡◌, ◌&&◌};
ghost use Rattle.vote.specs.Consider.{newer_copy, older_copy, pending_set, blocked, blocked_above, weighed, considered, mark_of, defers};
ghost use Rattle.vote.specs.Data.{heads_of, is_deferred, is_ok_vote, is_open, is_other, is_pending, is_unmarked};
ghost use Rattle.vote.specs.Requests.{conflicts, outranks};

use crate::data::{Head, Mark, Request, Verdict, Vote};
use crate::requests::{head_of, is_conflicting, is_outranking};

// What comes of considering a request, by the rule that fitted.
#[derive(Clone, Copy, Debug, PartialEq, Eq)]
pub enum Outcome {
    Rej,
    DeferBase,
    Dr,
    DeferPending,
    Ok,
}

// A vote of OK.
pub fn is_ok(m: Mark) -> bool
    ensures { result ≡ is_ok_vote m }
{
    matches!(m, Mark::Ok)
}

// A deferral, which is no vote.
pub fn is_deferred(m: Mark) -> bool
    ensures { result ≡ is_deferred m }
{
    matches!(m, Mark::Deferred)
}

// A vote of DR or REJ.
pub fn is_other(m: Mark) -> bool
    ensures { result ≡ is_other m }
{
    matches!(m, Mark::Dr | Mark::Rej)
}

// No mark.
pub fn is_unmarked(m: Mark) -> bool
    ensures { result ≡ is_unmarked m }
{
    matches!(m, Mark::None)
}

// No verdict yet.
pub fn is_open(v: Verdict) -> bool
    ensures { result ≡ is_open v }
{
    matches!(v, Verdict::Open)
}

// Whether a request voted so is pending: marked OK and held open.
#[tactic(auto, unfolding(crate::specs::Data::is_pending))]
pub fn is_pending(v: Vote) -> bool
    ensures { result ≡ is_pending v }
{
    is_ok(v.mark) && is_open(v.verdict)
}

// Whether some base item's copy has a larger stamp than the base stamp. What is left of the base set gives up its lowest item at each turn.
pub fn is_newer(base: u32, based: &[u64; 24], held: &[u64; 24]) -> bool
    ensures { result ≡ newer_copy base based.now held.now }
{
    // Stays: lowest item first by two operations a turn, here, in `write_items`, in table's tests of a request and in record's readers; an iterator of items would hold the same loop and ask the same law again, and is no plainer.
    let mut left = base;
    while left != 0 {
        let item = left.trailing_zeros() as usize;
        if 23 < item {
            return false;
        }
        if based[item] < held[item] {
            return true;
        }
        left &= left - 1;
    }
    false
}

// Whether some base stamp is larger than the copy's.
#[tactic(auto, unfolding(crate::specs::Consider::newer_copy, crate::specs::Consider::older_copy))]
pub fn is_older(base: u32, based: &[u64; 24], held: &[u64; 24]) -> bool
    ensures { result ≡ older_copy base based.now held.now }
{
    is_newer(base, held, based)
}

// The places of the pending requests, as a set.
fn pending_in(votes: &[Vote; 16]) -> u32
    ensures { result ≡ pending_set votes.now }
{
    let mut set = 0;
    for (j, v) in votes.iter().enumerate() {
        set += u32::from(is_pending(*v)) << j;
    }
    set
}

// Whether o conflicts with q and has higher priority.
fn is_above(o: Head, q: Head) -> bool
    ensures { result ≡ (conflicts q o && outranks o q) }
{
    is_conflicting(q, o) && is_outranking(o, q)
}

// Whether q conflicts with a pending request. What is left of the pending gives up its lowest place at each turn.
// Stays: a loop here and one in `is_blocked_above`: one loop for both would ask for the test as a closure with a clause of its own, and is no plainer.
// Over the pending alone: a loop over all 16 took 1.4 times as long where a queue waits behind a pending request (docs/SPEED.md).
pub fn is_blocked(requests: &[Request; 16], votes: &[Vote; 16], q: Head) -> bool
    ensures { result ≡ blocked (heads_of requests.now) votes.now q }
{
    let mut left = pending_in(votes);
    while left != 0 {
        let j = left.trailing_zeros() as usize;
        if is_conflicting(q, head_of(&requests[j])) {
            return true;
        }
        left &= left - 1;
    }
    false
}

// Whether q conflicts with a pending request of higher priority.
pub fn is_blocked_above(requests: &[Request; 16], votes: &[Vote; 16], q: Head) -> bool
    ensures { result ≡ blocked_above (heads_of requests.now) votes.now q }
{
    let mut left = pending_in(votes);
    while left != 0 {
        let j = left.trailing_zeros() as usize;
        if is_above(head_of(&requests[j]), q) {
            return true;
        }
        left &= left - 1;
    }
    false
}

// What a site makes of the request with head q whose base stamps are those of its copy, where `votes` is what it has said of the requests.
// Rule 5 comes before 3 and 4: who conflicts with no pending request conflicts with none of higher priority.
#[tactic(auto, using(crate::proofs::Considering::not_blocked_not_above))]
pub fn weigh(requests: &[Request; 16], votes: &[Vote; 16], q: Head) -> Outcome
    ensures { result ≡ weighed (heads_of requests.now) votes.now q }
{
    if !is_blocked(requests, votes, q) {
        return Outcome::Ok;
    }
    if is_blocked_above(requests, votes, q) {
        return Outcome::Dr;
    }
    Outcome::DeferPending
}

// What a site makes of the request q, where `votes` is what it has said of the requests and `held` its copy's stamps: rules 1 and 2, and then
// the others.
#[tactic(auto, unfolding(crate::specs::Consider::considered))]
pub fn consider(
    requests: &[Request; 16],
    votes: &[Vote; 16],
    held: &[u64; 24],
    q: &Request,
) -> Outcome
    ensures { result ≡ considered (heads_of requests.now) votes.now held.now q.now }
{
    if is_newer(q.base, &q.stamps, held) {
        return Outcome::Rej;
    }
    if is_older(q.base, &q.stamps, held) {
        return Outcome::DeferBase;
    }
    weigh(requests, votes, head_of(q))
}

// The mark that an outcome leaves.
pub fn mark_of(o: Outcome) -> Mark
    ensures { result ≡ mark_of o }
{
    match o {
        Outcome::Rej => Mark::Rej,
        Outcome::Dr => Mark::Dr,
        Outcome::Ok => Mark::Ok,
        Outcome::DeferBase | Outcome::DeferPending => Mark::Deferred,
    }
}

// Whether an outcome defers.
pub fn is_deferral(o: Outcome) -> bool
    ensures { result ≡ defers o }
{
    matches!(o, Outcome::DeferBase | Outcome::DeferPending)
}
