// "A verdict calls for a walk and a walk may bring a verdict": resolving and queue walking call each other, over the site that is lent.
ghost use Rattle.std.specs.Prelude.{◌≡◌, []};
ghost use Rattle.walk.specs.Walking.{walked, resolved, accepts_of, rejects_of, counts_of};

// Stays: requests, number of sites and site go one by one to the four functions of this crate: the table has them apart, and a struct of them, made for each call, would be no plainer.
use vote::consider::{consider, is_deferral, is_open, mark_of};
use vote::data::{Request, Site, Verdict};
use vote::queue::{leave_queue, queued_at};
use vote::requests::request_in;
use vote::verdicts::{rule, verdict_due};
use vote::voting::cast_vote;

// How many requests a site accepted and rejected.
#[derive(Clone, Copy, Debug, PartialEq, Eq)]
pub struct Settled {
    pub accepted: u32,
    pub rejected: u32,
}

// How many acceptances a verdict is, and how many rejections.
// Stays: a function for each of two verdicts, by what may not change: both are public calls with a theorem (`one_one_if_accepted`,
// `one_one_if_rejected`).
pub fn one_if_accepted(v: Verdict) -> u32
    ensures { result ≡ accepts_of v }
{
    u32::from(matches!(v, Verdict::Accepted))
}

pub fn one_if_rejected(v: Verdict) -> u32
    ensures { result ≡ rejects_of v }
{
    u32::from(matches!(v, Verdict::Rejected))
}

// Nothing more is accepted or rejected.
#[tactic(auto, unfolding(crate::specs::Walking::accepts, crate::specs::Walking::rejects))]
pub(crate) fn rest() -> Settled
    ensures { result ≡ counts_of [] }
{
    Settled {
        accepted: 0,
        rejected: 0,
    }
}

// Site `me` of n considers its queue again from the front. One that votes leaves the queue, one still deferred keeps its place; a vote
// that brings a verdict calls `resolve`, which walks again from the front.
#[cycle(resolve_walk)]
fn walk(requests: &[Request; 16], s: &mut Site, n: u8, me: u8) -> Settled
    ensures site { s.new ≡ (walked me n requests.now s.old 0).site }
    ensures counts { result ≡ counts_of (walked me n requests.now s.old 0).log }
{
    // Stays: the queue changes under the walk, so that no iterator over it can be held.
    let mut i: usize = 0;
    while i < usize::from(s.waiting) {
        let p = queued_at(&s.queue, i);
        let o = consider(requests, &s.votes, &s.stamps, request_in(requests, p));
        if is_deferral(o) {
            i += 1;
        } else {
            leave_queue(s, i);
            cast_vote(s, me, p, mark_of(o));
            let v = verdict_due(s, n, p);
            if !is_open(v) {
                return resolve(requests, s, n, me, p, v);
            }
        }
    }
    rest()
}

// The request at place p gets the verdict v at site `me` of n, and the queue is considered again from the front.
#[cycle(resolve_walk)]
pub fn resolve(requests: &[Request; 16], s: &mut Site, n: u8, me: u8, p: u8, v: Verdict) -> Settled
    ensures site { s.new ≡ (resolved me n requests.now s.old p v).site }
    ensures counts { result ≡ counts_of (resolved me n requests.now s.old p v).log }
{
    prove!(s.waiting <= 255);
    rule(s, request_in(requests, p), p, v);
    let later = walk(requests, s, n, me);
    Settled {
        accepted: later.accepted + one_if_accepted(v),
        rejected: later.rejected + one_if_rejected(v),
    }
}
