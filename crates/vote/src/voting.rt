// A site marks a request: it votes, or defers.
ghost use Rattle.std.specs.Prelude.{◌≡◌};
ghost use Rattle.vote.specs.Data.{vote_at};
ghost use Rattle.vote.specs.Voting.{mark_put, voted, deferred};

use crate::consider::is_ok;
use crate::data::{Mark, Site, Verdict, Vote};
use crate::queue::join_queue;
use crate::voters::join_voter;

// What a site has said of the request at place p; nothing of a place above 15.
pub fn vote_at(votes: &[Vote; 16], p: u8) -> Vote
    ensures { result ≡ vote_at votes.now p }
{
    votes.get(usize::from(p)).copied().unwrap_or(Vote {
        mark: Mark::None,
        verdict: Verdict::Open,
    })
}

// The request at place p gets the mark m; nothing changes at a place past the end.
pub fn put_mark(votes: &mut [Vote], p: u8, m: Mark)
    ensures { votes.new ≡ mark_put votes.old p m }
{
    let at = usize::from(p);
    if at < votes.len() {
        votes[at].mark = m;
    }
}

// The site `me` votes m on the request at place p; the vote counts at once among the voters that it knows.
#[tactic(auto, unfolding(crate::specs::Voting::voted, crate::specs::Voting::counts_itself, crate::specs::Voting::marked))]
pub fn cast_vote(s: &mut Site, me: u8, p: u8, m: Mark)
    ensures { s.new ≡ voted me s.old p m }
{
    put_mark(&mut s.votes, p, m);
    if is_ok(m) {
        join_voter(&mut s.oks, p, me);
    } else {
        join_voter(&mut s.others, p, me);
    }
}

// The site defers the request at place p, which joins the end of its queue.
#[tactic(auto, unfolding(crate::specs::Voting::deferred, crate::specs::Voting::marked))]
pub fn defer(s: &mut Site, p: u8)
    ensures { s.new ≡ deferred s.old p }
{
    put_mark(&mut s.votes, p, Mark::Deferred);
    join_queue(s, p);
}
