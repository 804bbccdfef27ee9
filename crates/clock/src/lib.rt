// The clock record of a site, and the one function that moves it on.
#![tactic(auto)]

ghost use Rattle.std.specs.Prelude.{◌≡◌};
ghost use Rattle.clock.specs.Clock.{answered, moved_on, issuing};

use refusals::Refusal;
use stamps::Given;

// The site's digit, and the last t that it issued: 0 when fresh.
#[derive(Clone, Copy, Debug, PartialEq, Eq)]
pub struct Clock {
    pub site: u8,
    pub last: u32,
}

// Issues a stamp: the record that is lent moves on to its t, and stays as it came where none is given.
pub fn issue(c: &mut Clock, clock: u32, base: u32, stamps: &[u64; 24]) -> Result<Given, Refusal>
    ensures { (result ≡ answered c.old clock base stamps.now)
        × (c.new ≡ moved_on c.old (answered c.old clock base stamps.now)) }
{
    let given = stamps::issue_stamp(c.site, clock, c.last, base, stamps)?;
    c.last = given.t;
    Ok(given)
}

// An answer, and the clock record after it.
#[derive(Clone, Copy, Debug, PartialEq, Eq)]
pub struct Issued {
    pub answer: Result<Given, Refusal>,
    pub clock: Clock,
}

// The same with the record by value, in and out.
// Stays: what may not change; document 01 asks for the lent form "over the covered stamp formula" once the core is there, and this public call is the core.
pub fn issue_from(mut c: Clock, clock: u32, base: u32, stamps: &[u64; 24]) -> Issued
    ensures { result ≡ issuing c clock base stamps.now }
{
    let answer = issue(&mut c, clock, base, stamps);
    Issued { answer, clock: c }
}
