// Blank sites, places and messages.
ghost use Rattle.std.specs.Prelude.{◌≡◌, get_or};
ghost use Rattle.kit.specs.Range.{all};
ghost use Rattle.table.specs.Blank.{blank_vote, is_blank_request, holds_nothing, is_blank_site, is_blank_message};

use crate::data::Message;
use vote::consider::{is_open, is_unmarked};
use vote::data::{Request, Site, Vote};
use vote::voters::{is_no_voter, is_none_known};
use vote::voting::vote_at;

// Whether each element of a row is x.
fn are_all<T: PartialEq, const N: usize>(row: &[T; N], x: &T) -> bool
    ensures { result ≡ all N (λ i. T.eq (get_or row.now i x.now) x.now) }
{
    row.iter().all(|y| y == x)
}

// Whether nothing is said.
#[tactic(auto, unfolding(crate::specs::Blank::blank_vote))]
pub fn is_blank_vote(v: Vote) -> bool
    ensures { result ≡ blank_vote v }
{
    is_unmarked(v.mark) && is_open(v.verdict)
}

// Whether a request place is empty, to the last number.
#[tactic(auto, unfolding(crate::specs::Blank::is_blank_request, crate::specs::Blank::zeros), using(crate::proofs::Blanks::each_zero))]
pub fn is_blank_request(q: &Request) -> bool
    ensures { result ≡ is_blank_request q.now }
{
    q.stamp == 0 && q.base == 0 && q.update == 0 && are_all(&q.stamps, &0) && are_all(&q.values, &0)
}

// Whether a site holds nothing of the request at place p.
#[tactic(auto, unfolding(crate::specs::Blank::holds_nothing))]
pub fn is_holding_nothing(s: &Site, p: u8) -> bool
    ensures { result ≡ holds_nothing s.now p }
{
    is_blank_vote(vote_at(&s.votes, p)) && is_none_known(&s.oks, p) && is_none_known(&s.others, p)
}

// Whether a site holds nothing of any of the 16 places.
fn is_holding_nothing_anywhere(s: &Site) -> bool
    ensures { result ≡ all 16 (holds_nothing s.now) }
{
    (0..16).all(|p| is_holding_nothing(s, p))
}

// Whether a site is blank.
#[tactic(auto, unfolding(crate::specs::Blank::is_blank_site, crate::specs::Blank::zeros), using(crate::proofs::Blanks::each_zero))]
pub fn is_blank_site(s: &Site) -> bool
    ensures { result ≡ is_blank_site s.now }
{
    !s.up
        && s.last == 0
        && are_all(&s.stamps, &0)
        && are_all(&s.values, &0)
        && are_all(&s.queue, &0)
        && s.waiting == 0
        && is_holding_nothing_anywhere(s)
}

// Whether a message place is blank.
#[tactic(auto, unfolding(crate::specs::Blank::is_blank_message))]
pub fn is_blank_message(m: &Message) -> bool
    ensures { result ≡ is_blank_message m.now }
{
    !m.used
        && m.request == 0
        && m.from == 0
        && m.to == 0
        && is_open(m.verdict)
        && is_no_voter(&m.oks)
        && is_no_voter(&m.others)
}
