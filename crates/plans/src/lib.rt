// What the eight steps look for in a table, what they ask, and what they put there.
#![tactic(auto)]

pub mod answer;
pub mod begin;
pub mod free;
pub mod messages;
pub mod places;
pub mod retire;
pub mod sites;
