// All that one site (bench) does with one request at a time: document 01, "Requests and votes".
#![tactic(auto)]

pub mod consider;
pub mod data;
pub mod numbers;
pub mod queue;
pub mod requests;
pub mod verdicts;
pub mod voters;
pub mod voting;
