// The exact test of soundness, for every table, spoiled ones included.
ghost use Rattle.std.specs.Prelude.{◌≡◌};
ghost use Rattle.table.specs.Sound.{sound_table};
ghost use Rattle.table.specs.Parts.{stamps_of};

use crate::data::Table;
use crate::fresh::is_site_count;
use crate::marks::{lasts_of, marked_of};
use crate::parts::Gathered;
use vote::data::Request;

// The stamp of each request place.
fn stamps_of(rs: &[Request; 16]) -> [u64; 16]
    ensures { result ≡ stamps_of rs.now }
{
    std::array::from_fn(|p| rs[p].stamp)
}

// Whether a table is sound.
// Stays: three loops; with `.all(..)` in their place the closures were proved, but that the three answers are `sound_table` stayed open (returns-then-all-2, returns-else-all-2).
pub fn sound(t: &Table) -> bool
    ensures { result ≡ sound_table t.now }
{
    if !is_site_count(t.count) {
        return false;
    }
    let gathered = Gathered {
        n: t.count,
        lasts: lasts_of(&t.sites),
        stamps: stamps_of(&t.requests),
        marked: marked_of(&t.sites),
    };
    for (p, q) in t.requests.iter().enumerate() {
        if !gathered.is_request_sound(p, q) {
            return false;
        }
    }
    for (k, s) in t.sites.iter().enumerate() {
        if !gathered.is_site_sound(k, s) {
            return false;
        }
    }
    for m in &t.messages {
        if !gathered.is_message_sound(m) {
            return false;
        }
    }
    true
}
