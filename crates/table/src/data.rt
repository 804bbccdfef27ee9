// What a table holds. Sites, request places and message places count from 0; site k has the digit k + 1.
use vote::data::{Request, Site, Verdict};

// A message: what site `from` knew of the request at place `request` when it told site `to`. An unused place is blank.
// Stays: document 01 names unused places as blank ones and refuses a spoiled one, so `used` stands beside the fields and not an Option.
#[derive(Clone, Copy, Debug, PartialEq, Eq)]
pub struct Message {
    pub used: bool,
    pub request: u8,
    pub from: u8,
    pub to: u8,
    pub verdict: Verdict,
    pub oks: [bool; 7],
    pub others: [bool; 7],
}

#[derive(Clone, Copy, Debug, PartialEq, Eq)]
pub struct Table {
    pub count: u8,
    pub sites: [Site; 7],
    pub requests: [Request; 16],
    pub messages: [Message; 64],
}
