// The eight steps on a table that is lent: document 01, "Steps" and "Numbers given back".
#![tactic(auto)]

mod acting;
mod answering;
pub mod run;
pub mod step;
