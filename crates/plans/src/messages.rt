// What a message tells.
ghost use Rattle.std.specs.Prelude.{◌≡◌, not, ◌||◌};
ghost use Rattle.vote.specs.Data.{is_ok_vote, is_other, is_open};
ghost use Rattle.plans.specs.Changes.{message_from};

use table::data::Message;
use vote::consider::{is_ok, is_open, is_other};
use vote::data::{Site, Vote};
use vote::voters::{no_voters, voters_of};
use vote::voting::vote_at;

// Whether a site has a vote or a verdict.
pub fn has_word(v: Vote) -> bool
    ensures { result ≡ ((is_ok_vote v.mark || is_other v.mark) || not (is_open v.verdict)) }
{
    is_ok(v.mark) || is_other(v.mark) || !is_open(v.verdict)
}

// What the site of index `from` tells that of index `to` of place p: its known voters while it holds the request open, else its verdict.
pub fn message_from(s: &Site, p: u8, from: u8, to: u8) -> Message
    ensures { result ≡ message_from s.now p from to }
{
    let verdict = vote_at(&s.votes, p).verdict;
    let held_open = is_open(verdict);
    Message {
        used: true,
        request: p,
        from,
        to,
        verdict,
        oks: if held_open {
            voters_of(&s.oks, p)
        } else {
            no_voters()
        },
        others: if held_open {
            voters_of(&s.others, p)
        } else {
            no_voters()
        },
    }
}
