// What one site holds. Items and request places count from 0; site number u of the table is 0 to 6, its digit u + 1.

// A site's own mark of a request.
#[derive(Clone, Copy, Debug, PartialEq, Eq)]
pub enum Mark {
    None,
    Deferred,
    Ok,
    Dr,
    Rej,
}

#[derive(Clone, Copy, Debug, PartialEq, Eq)]
pub enum Verdict {
    Open,
    Accepted,
    Rejected,
}

// What a site has said of one request.
#[derive(Clone, Copy, Debug, PartialEq, Eq)]
pub struct Vote {
    pub mark: Mark,
    pub verdict: Verdict,
}

// A request: its stamp (0 at a free place), base set and update set, a base stamp for each base item, a new value for each update item.
// Stays: arrays of 24, by item, and no pairs: document 01 names the form, "Request struct holds arrays of 24 stamps and 24 values".
#[derive(Clone, Copy, Debug, PartialEq, Eq)]
pub struct Request {
    pub stamp: u64,
    pub base: u32,
    pub update: u32,
    pub stamps: [u64; 24],
    pub values: [i32; 24],
}

// All of a request that covering and priority look at.
#[derive(Clone, Copy, Debug, PartialEq, Eq)]
pub struct Head {
    pub stamp: u64,
    pub base: u32,
    pub update: u32,
}

// A site: its last t, its copy (a stamp and a value for each item), its queue of deferred requests (of which the first `waiting` places
// count), and for each of the 16 request places what it has said and which voters it knows: voter u of place p at 7 × p + u.
// Stays: a queue with its length beside it and flat rows of voters: document 01 names the form, "site struct holds its copy and queue arrays"; a row may hold what no sound site has, and is read as it stands.
#[derive(Clone, Copy, Debug, PartialEq, Eq)]
pub struct Site {
    pub up: bool,
    pub last: u32,
    pub stamps: [u64; 24],
    pub values: [i32; 24],
    pub queue: [u8; 16],
    pub waiting: u8,
    pub votes: [Vote; 16],
    pub oks: [bool; 112],
    pub others: [bool; 112],
}
