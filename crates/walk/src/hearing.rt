// What a site does with a request that it begins or hears of.
ghost use Rattle.std.specs.Prelude.{◌≡◌};
ghost use Rattle.walk.specs.Hearing.{taken_up, received};
ghost use Rattle.walk.specs.Walking.{counts_of};

use crate::walking::{Settled, resolve, rest};
use vote::consider::{consider, is_deferral, is_open, is_unmarked, mark_of};
use vote::data::{Request, Site, Verdict};
use vote::requests::request_in;
use vote::verdicts::verdict_due;
use vote::voters::join_voters;
use vote::voting::{cast_vote, defer, vote_at};

// Site `me` of n considers the request at place p: it is deferred, or voted on, which counts at once and may bring a verdict.
#[tactic(auto, unfolding(crate::specs::Hearing::taken_up, crate::specs::Hearing::settled, crate::specs::Walking::accepts, crate::specs::Walking::rejects))]
pub fn take_up(requests: &[Request; 16], s: &mut Site, n: u8, me: u8, p: u8) -> Settled
    ensures site { s.new ≡ (taken_up me n requests.now s.old p).site }
    ensures counts { result ≡ counts_of (taken_up me n requests.now s.old p).log }
{
    let o = consider(requests, &s.votes, &s.stamps, request_in(requests, p));
    if is_deferral(o) {
        defer(s, p);
        return rest();
    }
    cast_vote(s, me, p, mark_of(o));
    let v = verdict_due(s, n, p);
    if is_open(v) {
        return rest();
    }
    resolve(requests, s, n, me, p, v)
}

// A message of the request at place p comes to site `me` of n: a verdict held there already keeps all as it is, one that is sent is taken
// over; else the voters are joined, and a request not marked yet is considered.
#[tactic(auto, unfolding(crate::specs::Hearing::received, crate::specs::Hearing::heard, crate::specs::Walking::accepts, crate::specs::Walking::rejects))]
// Stays: the parts of a message one by one: the message is the table's, a crate above, and a struct of these alone would be one more name for it.
pub fn receive(
    requests: &[Request; 16],
    s: &mut Site,
    n: u8,
    me: u8,
    p: u8,
    sent: Verdict,
    more_oks: &[bool; 7],
    more_others: &[bool; 7],
) -> Settled
    ensures site { s.new ≡ (received me n requests.now s.old p sent more_oks.now more_others.now).site }
    ensures counts { result ≡ counts_of (received me n requests.now s.old p sent more_oks.now more_others.now).log }
{
    let old = vote_at(&s.votes, p);
    if !is_open(old.verdict) {
        return rest();
    }
    if !is_open(sent) {
        return resolve(requests, s, n, me, p, sent);
    }
    join_voters(&mut s.oks, p, more_oks);
    join_voters(&mut s.others, p, more_others);
    let v = verdict_due(s, n, p);
    if !is_open(v) {
        return resolve(requests, s, n, me, p, v);
    }
    if !is_unmarked(old.mark) {
        return rest();
    }
    take_up(requests, s, n, me, p)
}
