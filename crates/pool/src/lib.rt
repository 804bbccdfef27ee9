// The message pool, lent as a slice: losing a message, and the lowest free place.
#![tactic(auto)]

ghost use Rattle.std.specs.Prelude.{◌≡◌, not, length, position};
ghost use Rattle.pool.specs.Pool.{emptied, lowest_free};

use table::data::Message;
use table::fresh::blank_message;

// Empties one place of the pool that is lent. A place beyond its end is none, and nothing changes.
pub fn drop_at(pool: &mut [Message], place: usize)
    ensures { pool.new ≡ emptied pool.old place }
{
    if place < pool.len() {
        pool[place] = blank_message();
    }
}

// The same with the pool by value, in and out.
// Stays: document 01, "Losing a message empties that one place ..": thin functions over the lent pool "after the core by-value form", for both calls.
pub fn drop_from(mut pool: [Message; 64], place: usize) -> [Message; 64]
    ensures { result ≡ emptied pool place }
{
    drop_at(&mut pool, place);
    pool
}

// The lowest free place of the pool that is lent, if there is one.
fn free_place(pool: &[Message]) -> Option<usize>
    ensures { result ≡ position (λ m. not m.used) pool.now }
{
    pool.iter().position(|m| !m.used)
}

// The same, and the pool's length where there is none.
// Stays: document 01 names a lowest-free-place function over the lent pool; the steps keep a set of free places and do without it.
#[tactic(auto, using(crate::proofs::Laws::lowest_or_length))]
pub fn lowest_free(pool: &[Message]) -> usize
    ensures { result ≡ lowest_free (length pool.now) pool.now }
{
    free_place(pool).unwrap_or(pool.len())
}

// The same with the pool by value: 64 where there is none.
// Stays: the by-value form of document 01, as above.
pub fn lowest_free_in(pool: [Message; 64]) -> usize
    ensures { result ≡ lowest_free 64 pool }
{
    lowest_free(&pool)
}
