// Document 01, "Numbers given back": why a call did nothing.
#![tactic(auto)]

ghost use Rattle.std.specs.Prelude.{◌≡◌};
ghost use Rattle.refusals.specs.Numbers.{number_of, answer_number};

use std::error::Error;
use std::fmt;

// Why a call did nothing, in the order of document 01's list, whose numbers these are. Of those that apply a call gives the smallest.
#[derive(Clone, Copy, Debug, PartialEq, Eq, PartialOrd, Ord)]
pub enum Refusal {
    NotSound = 1,
    NoSuchStep = 2,
    NoSuchSite = 3,
    SiteDown = 4,
    WrongSets = 5,
    WrongBaseStamp = 6,
    WrongValue = 7,
    TimePast = 8,
    RequestsFull = 9,
    NoSuchRequest = 10,
    NothingToTell = 11,
    MessagesFull = 12,
    NoSuchMessage = 13,
    HeldBack = 14,
    AlreadyUp = 15,
    NoSuchItem = 16,
    WrongRecord = 17,
    NoSiteFile = 18,
    NotWritten = 19,
}

impl Refusal {
    // Document 01's number of it.
    pub fn number(self) -> u8
        ensures { result ≡ number_of self }
    {
        self as u8
    }
}

// As document 01 prints it: its number.
impl fmt::Display for Refusal {
    fn fmt<W: fmt::Write>(&self, f: &mut fmt::Formatter<W>) -> fmt::Result {
        write!(f, "{}", self.number())
    }
}

impl Error for Refusal {}

// The number that an answer gives back: 0 where the call was done.
pub fn answer_number<T: Copy>(answer: Result<T, Refusal>) -> u8
    ensures { result ≡ answer_number answer }
{
    match answer {
        Ok(_) => 0,
        Err(refusal) => refusal.number(),
    }
}
