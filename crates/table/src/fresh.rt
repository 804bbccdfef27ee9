// The fresh table.
ghost use Rattle.std.specs.Prelude.{◌≡◌, ◌&&◌, leb};
ghost use Rattle.table.specs.Fresh.{blank_site, blank_message, blank_table, fresh_for};

use crate::data::{Message, Table};
use vote::data::{Mark, Site, Verdict, Vote};
use vote::requests::blank_request;
use vote::voters::{no_known, no_voters};

// Whether a table may have n sites.
pub(crate) fn is_site_count(n: u8) -> bool
    ensures { result ≡ (leb 1 n && leb n 7) }
{
    matches!(n, 1..=7)
}

// A site that holds nothing.
#[tactic(auto, unfolding(crate::specs::Fresh::blank_site))]
pub fn blank_site(up: bool) -> Site
    ensures { result ≡ blank_site up }
{
    let none = Vote {
        mark: Mark::None,
        verdict: Verdict::Open,
    };
    Site {
        up,
        last: 0,
        stamps: [0; 24],
        values: [0; 24],
        queue: [0; 16],
        waiting: 0,
        votes: [none; 16],
        oks: no_known(),
        others: no_known(),
    }
}

// An empty message place.
#[tactic(auto, unfolding(crate::specs::Fresh::blank_message))]
pub fn blank_message() -> Message
    ensures { result ≡ blank_message }
{
    Message {
        used: false,
        request: 0,
        from: 0,
        to: 0,
        verdict: Verdict::Open,
        oks: no_voters(),
        others: no_voters(),
    }
}

// The table of n sites, each up, that holds nothing.
#[tactic(auto, unfolding(crate::specs::Fresh::blank_table))]
fn blank_table(n: u8) -> Table
    ensures { result ≡ blank_table n }
{
    Table {
        count: n,
        sites: std::array::from_fn(|k| blank_site(k < usize::from(n))),
        requests: [blank_request(); 16],
        messages: [blank_message(); 64],
    }
}

// Stays: a refused fresh table is all zeros (document 01, "Numbers given back"), so the table stands beside number 3 too.
#[derive(Clone, Copy)]
pub struct FreshTable {
    pub number: u8,
    pub table: Table,
}

// A fresh table, or number 3 and a table of no sites.
#[tactic(auto, unfolding(crate::specs::Fresh::fresh_for))]
pub fn fresh(n: u8) -> FreshTable
    ensures { result ≡ fresh_for n }
{
    if is_site_count(n) {
        FreshTable {
            number: 0,
            table: blank_table(n),
        }
    } else {
        FreshTable {
            number: 3,
            table: blank_table(0),
        }
    }
}
