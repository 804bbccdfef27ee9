// Verdicts at a site.
ghost use Rattle.std.specs.Prelude.{◌≡◌};
ghost use Rattle.vote.specs.Data.{vote_at};
ghost use Rattle.vote.specs.Verdicts.{verdict_due, verdict_put, released, ruled, stamps_written, values_written, written_site};

use crate::consider::is_deferred;
use crate::data::{Mark, Request, Site, Verdict, Vote};
use crate::queue::{leave_queue, place_in_queue};
use crate::voters::count_known;
use crate::voting::{put_mark, vote_at};

// The verdict that the voters known of place p call for, of n sites: Open while they are too few for either.
#[tactic(auto, unfolding(crate::specs::Verdicts::verdict_due))]
pub fn verdict_due(s: &Site, n: u8, p: u8) -> Verdict
    ensures { result ≡ verdict_due n s.now.oks s.now.others p }
{
    if majority::to_accept(n) <= count_known(&s.oks, p) {
        return Verdict::Accepted;
    }
    if majority::to_reject(n) <= count_known(&s.others, p) {
        return Verdict::Rejected;
    }
    Verdict::Open
}

// The request at place p leaves the queue, where it stands there, and its mark becomes none.
#[tactic(auto, unfolding(crate::specs::Verdicts::released, crate::specs::Voting::marked))]
pub fn release(s: &mut Site, p: u8)
    ensures { s.new ≡ released s.old p }
{
    put_mark(&mut s.votes, p, Mark::None);
    let i = place_in_queue(&s.queue, s.waiting, p);
    if i < usize::from(s.waiting) {
        leave_queue(s, i);
    }
}

// The request at place p gets the verdict v; nothing changes at a place past the end.
pub fn note_verdict(votes: &mut [Vote], p: u8, v: Verdict)
    ensures { votes.new ≡ verdict_put votes.old p v }
{
    let at = usize::from(p);
    if at < votes.len() {
        votes[at].verdict = v;
    }
}

// Writes each update item of q whose copy stamp is smaller than q's. What is left of the update set gives up its lowest item at each turn.
fn write_items(stamps: &mut [u64; 24], values: &mut [i32; 24], q: &Request)
    ensures stamps { stamps.new ≡ stamps_written stamps.old q.now }
    ensures values { values.new ≡ values_written stamps.old q.now values.old }
{
    let mut left = q.update;
    while left != 0 {
        let item = left.trailing_zeros() as usize;
        if 23 < item {
            return;
        }
        if stamps[item] < q.stamp {
            stamps[item] = q.stamp;
            values[item] = q.values[item];
        }
        left &= left - 1;
    }
}

// Writes q into the site's copy.
#[tactic(auto, unfolding(crate::specs::Verdicts::written_site, crate::specs::Verdicts::written_up_to, crate::specs::Verdicts::stamps_written, crate::specs::Verdicts::values_written))]
pub fn write_request(s: &mut Site, q: &Request)
    ensures { s.new ≡ written_site s.old q.now }
{
    write_items(&mut s.stamps, &mut s.values, q);
}

// The request q at place p gets the verdict v: a deferred one leaves the queue and its mark becomes none, and an accepted one is written.
#[tactic(auto, unfolding(crate::specs::Verdicts::ruled, crate::specs::Verdicts::decided, crate::specs::Verdicts::noted))]
pub fn rule(s: &mut Site, q: &Request, p: u8, v: Verdict)
    ensures { s.new ≡ ruled s.old q.now p v }
{
    if is_deferred(vote_at(&s.votes, p).mark) {
        release(s, p);
    }
    note_verdict(&mut s.votes, p, v);
    if matches!(v, Verdict::Accepted) {
        write_request(s, q);
    }
}
