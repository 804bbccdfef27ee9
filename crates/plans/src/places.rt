// Where a request place is found by its stamp.
ghost use Rattle.std.specs.Prelude.{◌≡◌, ◌==◌, ◌<◌, IfSome};
ghost use Rattle.std.specs.List.{position_from};
ghost use Rattle.plans.specs.Pieces.{found, free_in, place_in};

use vote::data::Request;

// The first place with this stamp.
fn first_with(requests: &[Request; 16], stamp: u64) -> Option<usize>
    ensures value { result ≡ position_from (λ q. q.stamp == stamp) 0 requests.now }
    ensures inside { IfSome result (λ p. p < 16) }
{
    requests.iter().position(|q| q.stamp == stamp)
}

// The lowest free request place.
#[tactic(auto, using(crate::proofs::Found::free_found))]
pub fn free_place(requests: &[Request; 16]) -> Option<usize>
    ensures value { result ≡ found 16 (free_in requests.now) }
    ensures inside { IfSome result (λ p. p < 16) }
{
    first_with(requests, 0)
}

// The place of the request with this stamp; stamp 0 names none.
#[tactic(auto, using(crate::proofs::Found::stamp_found, crate::proofs::Found::none_found))]
pub fn place_with(requests: &[Request; 16], stamp: u64) -> Option<usize>
    ensures value { result ≡ found 16 (place_in requests.now stamp) }
    ensures inside { IfSome result (λ p. p < 16) }
{
    if stamp == 0 {
        return None;
    }
    first_with(requests, stamp)
}
