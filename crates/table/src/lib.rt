// The table: 1 to 7 sites, 16 request places, 64 message places; the fresh table and the exact test of soundness.
#![tactic(auto)]

pub mod blank;
pub mod data;
pub mod fresh;
pub mod marks;
pub mod parts;
pub mod requests;
pub mod sound;
