// What holds a request back from being retired, and what its sites forget.
ghost use Rattle.std.specs.Prelude.{◌≡◌, ◌&&◌, ◌==◌, ltb, get_or, set};
ghost use Rattle.std.specs.List.{list_any};
ghost use Rattle.kit.specs.Lists.{changed};
ghost use Rattle.kit.specs.Range.{any};
ghost use Rattle.table.specs.Places.{no_site};
ghost use Rattle.vote.specs.Data.{is_open, no_vote, vote_at};
ghost use Rattle.plans.specs.Pieces.{held_back};
ghost use Rattle.plans.specs.Changes.{forgotten};

use table::data::Message;
use vote::consider::is_open;
use vote::data::{Mark, Site, Verdict, Vote};
use vote::voters::clear_voters;
use vote::voting::vote_at;

// Whether site k of n holds the request at place p open.
fn is_open_at(n: u8, k: usize, s: &Site, p: u8) -> bool
    ensures { result ≡ (ltb k n && is_open (vote_at s.now.votes p).verdict) }
{
    k < usize::from(n) && is_open(vote_at(&s.votes, p).verdict)
}

// Whether some site of the table has no verdict on the request at place p.
fn is_open_somewhere(n: u8, sites: &[Site; 7], p: u8) -> bool
    ensures { result ≡ any 7 (λ k. ltb k n && is_open (vote_at (get_or sites.now k no_site).votes p).verdict) }
{
    for (k, s) in sites.iter().enumerate() {
        if is_open_at(n, k, s, p) {
            return true;
        }
    }
    false
}

// Whether some message names the request at place p.
fn is_named(messages: &[Message; 64], p: u8) -> bool
    ensures { result ≡ list_any (λ m. m.used && m.request == p) messages.now }
{
    messages.iter().any(|m| m.used && m.request == p)
}

// Whether the request at place p is held back: some site of the table has no verdict on it, or a message names it.
#[tactic(auto, using(crate::proofs::Named::held_back_is))]
pub fn is_held_back(n: u8, sites: &[Site; 7], messages: &[Message; 64], p: u8) -> bool
    ensures { result ≡ held_back n sites.now messages.now p }
{
    is_open_somewhere(n, sites, p) || is_named(messages, p)
}

// Nothing is said of place p any more; a place above 15 is none.
fn clear_vote(votes: &mut [Vote; 16], p: u8)
    ensures { votes.new ≡ set votes.old p no_vote }
{
    let at = usize::from(p);
    if at < 16 {
        votes[at] = Vote {
            mark: Mark::None,
            verdict: Verdict::Open,
        };
    }
}

// A site holds nothing of place p any more.
#[tactic(auto, unfolding(crate::specs::Changes::forgotten))]
pub fn forget(s: &mut Site, p: u8)
    ensures { s.new ≡ forgotten p 0 s.old }
{
    clear_vote(&mut s.votes, p);
    clear_voters(&mut s.oks, p);
    clear_voters(&mut s.others, p);
}

// No site holds anything of place p any more.
pub fn forget_everywhere(sites: &mut [Site; 7], p: u8)
    ensures { sites.new ≡ changed 7 (forgotten p) sites.old }
{
    for s in sites {
        forget(s, p);
    }
}
