// What a begin asks before it stores its request, and the request that it stores.
ghost use Rattle.std.specs.Prelude.{◌≡◌};
ghost use Rattle.record.specs.Records.{step_from};
ghost use Rattle.plans.specs.Changes.{kept_row, stored};
ghost use Rattle.plans.specs.Pieces.{given_for};

use clock::{Clock, issue};
use record::Brief;
use refusals::Refusal;
use stamps::Given;
use table::requests::{are_base_stamps_allowed, are_sets_allowed, are_values_allowed};
use vote::data::Request;

// The stamp of a begin at a site of n whose last t this is, by checks 5 to 8: the record a with its stamps and values.
#[tactic(auto, unfolding(crate::specs::Pieces::given_for))]
// Stays: tried, and too slow: a record with its stamps and values in one struct is put together in memory for every step (1.6 against 1.5 of
// the second program's time, docs/SPEED.md), so they stand beside it here and wherever a begin goes.
pub fn stamp_for(
    n: u8,
    last: u32,
    a: Brief,
    stamps: &[u64; 24],
    values: &[i32; 24],
) -> Result<Given, Refusal>
    ensures { result ≡ given_for n last (step_from a stamps.now values.now) }
{
    if !are_sets_allowed(a.base, a.update) {
        return Err(Refusal::WrongSets);
    }
    if !are_base_stamps_allowed(n, a.base, stamps) {
        return Err(Refusal::WrongBaseStamp);
    }
    if !are_values_allowed(a.update, values) {
        return Err(Refusal::WrongValue);
    }
    let mut clock = Clock { site: a.site, last };
    issue(&mut clock, a.clock, a.base, stamps)
}

// The numbers of the items of a set, by item; 0 for the others.
fn kept<T: Copy>(zero: T, set: u32, numbers: &[T; 24]) -> [T; 24]
    ensures { result ≡ kept_row zero «set» numbers.now }
{
    let mut row = [zero; 24];
    // Stays: tried `array::from_fn`; of the generic closure stayed open that i is below 24, and what it gives (`listed`, `returns`).
    for i in 0..24 {
        row[i] = if sets::has(set, i) { numbers[i] } else { zero };
    }
    row
}

// The request that is stored under this stamp.
#[tactic(auto, unfolding(crate::specs::Changes::stored))]
pub fn stored(a: Brief, stamps: &[u64; 24], values: &[i32; 24], stamp: u64) -> Request
    ensures { result ≡ stored (step_from a stamps.now values.now) stamp }
{
    Request {
        stamp,
        base: a.base,
        update: a.update,
        stamps: kept(0, a.base, stamps),
        values: kept(0, a.update, values),
    }
}
