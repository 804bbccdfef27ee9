// Two requests beside each other.
ghost use Rattle.std.specs.Prelude.{◌≡◌, ◌&&◌, eqb};
ghost use Rattle.kit.specs.Range.{implies};
ghost use Rattle.vote.specs.Data.{blank_request, head_of, request_in};
ghost use Rattle.vote.specs.Requests.{covers, conflicts, outranks, concurrent};

use crate::data::{Head, Request};

const BLANK: Request = Request {
    stamp: 0,
    base: 0,
    update: 0,
    stamps: [0; 24],
    values: [0; 24],
};

// An empty place.
#[tactic(auto, unfolding(crate::specs::Data::blank_request))]
pub fn blank_request() -> Request
    ensures { result ≡ blank_request }
{
    BLANK
}

// The head of a request.
pub fn head_of(q: &Request) -> Head
    ensures { result ≡ head_of q.now }
{
    Head {
        stamp: q.stamp,
        base: q.base,
        update: q.update,
    }
}

// Whether a's update set meets b's base set.
#[tactic(auto, unfolding(crate::specs::Requests::covers))]
pub fn is_covering(a: Head, b: Head) -> bool
    ensures { result ≡ covers a b }
{
    sets::meet(a.update, b.base)
}

// Whether either covers the other.
#[tactic(auto, unfolding(crate::specs::Requests::conflicts))]
pub fn is_conflicting(a: Head, b: Head) -> bool
    ensures { result ≡ conflicts a b }
{
    is_covering(a, b) || is_covering(b, a)
}

// Whether a has higher priority than b.
pub fn is_outranking(a: Head, b: Head) -> bool
    ensures { result ≡ outranks a b }
{
    stamps::is_higher(a.stamp, b.stamp)
}

// Whether an item that is in both base sets, where it is, has equal base stamps in both.
fn agree(in_a: bool, in_b: bool, x: u64, y: u64) -> bool
    ensures { result ≡ implies (in_a && in_b) (eqb x y) }
{
    !(in_a && in_b) || x == y
}

// Whether each item in both base sets has equal base stamps in both.
pub fn is_concurrent(a: &Request, b: &Request) -> bool
    ensures { result ≡ concurrent a.now b.now }
{
    // Stays: membership is by the item's number; tried as `(0..24).all(..)`, and the last goal stayed open.
    for i in 0..24 {
        if !agree(
            sets::has(a.base, i),
            sets::has(b.base, i),
            a.stamps[i],
            b.stamps[i],
        ) {
            return false;
        }
    }
    true
}

// The request at place p; an empty one at a place above 15.
#[tactic(auto, unfolding(crate::specs::Data::request_in, crate::specs::Data::blank_request))]
pub fn request_in(requests: &[Request; 16], p: u8) -> &Request
    ensures { result.now ≡ request_in requests.now p }
{
    requests.get(usize::from(p)).unwrap_or(&BLANK)
}
