// Step records: from bytes to steps. Document 01, "Step records and the bench program".
// What a record stands for is said in specs/; body.rt has a reader for each kind of body.
#![tactic(auto)]

mod body;

ghost use Rattle.std.specs.Prelude.{◌≡◌, ◌+◌, true, false, length, MatchOption};
ghost use Rattle.record.specs.Bodies.{blank_step, begin_step, numberless};
ghost use Rattle.record.specs.Records.{body_of, body_read, is_cut, record_of, brief_of, outline, step_from, record_read, whole_brief, brief_read};

use crate::body::{
    begin_length, begin_numbers, read_begin, read_one_place, read_one_site, read_read, read_retire,
    read_tell,
};
use refusals::Refusal;

// Any of the eight steps. Each uses the fields that are named here; the others are 0.
//     1 begin            site, clock, base, update, stamps, values
//     2 tell             site (the one that tells), stamp, to
//     3 deliver, 4 drop  place
//     5 down, 6 up       site
//     7 retire           stamp
//     8 read             site, item
// The sets have bit i set for item i; stamps and values are by item, 0 for an item outside the base set and the update set.
// Stays: a struct with a code and no enum, by what may not change: a caller may hand in any code, and `steps::step` gives 2 for one that is no step.
#[derive(Clone, Copy, Debug, PartialEq, Eq)]
pub struct Step {
    pub code: u8,
    pub site: u8,
    pub to: u8,
    pub item: u8,
    pub place: u8,
    pub clock: u32,
    pub stamp: u64,
    pub base: u32,
    pub update: u32,
    pub stamps: [u64; 24],
    pub values: [i32; 24],
}

// A step without a begin's stamps and values, which no other step has. Small fields stand between large ones, so that no two are stored in
// one word.
#[derive(Clone, Copy, Debug, PartialEq, Eq, Default)]
pub struct Brief {
    pub code: u8,
    pub clock: u32,
    pub site: u8,
    pub base: u32,
    pub to: u8,
    pub update: u32,
    pub item: u8,
    pub stamp: u64,
    pub place: u8,
}

// A whole record: how many bytes its body has, and its step, or why it is none (document 01's 2 or 17).
#[derive(Clone, Copy, Debug, PartialEq, Eq)]
pub struct Whole<S> {
    pub length: u16,
    pub step: Result<S, Refusal>,
}

impl<S: Copy> Whole<S> {
    // How many bytes it has: three, and its body.
    pub fn size(&self) -> usize
        ensures { result ≡ 3 + self.now.length }
    {
        3 + usize::from(self.length)
    }
}

impl Step {
    // It without its stamps and values.
    pub fn brief(&self) -> Brief
        ensures { result ≡ outline self.now }
    {
        Brief {
            code: self.code,
            clock: self.clock,
            site: self.site,
            base: self.base,
            to: self.to,
            update: self.update,
            item: self.item,
            stamp: self.stamp,
            place: self.place,
        }
    }
}

impl Brief {
    // It with these stamps and values.
    pub fn with(self, stamps: [u64; 24], values: [i32; 24]) -> Step
        ensures { result ≡ step_from self stamps values }
    {
        Step {
            code: self.code,
            site: self.site,
            to: self.to,
            item: self.item,
            place: self.place,
            clock: self.clock,
            stamp: self.stamp,
            base: self.base,
            update: self.update,
            stamps,
            values,
        }
    }
}

// No step: every field 0.
pub fn blank_step() -> Step
    ensures { result ≡ blank_step }
{
    Brief::default().with([0; 24], [0; 24])
}

// The body of the record that bytes start with; none where the record is cut.
#[tactic(auto, unfolding(crate::specs::Records::is_cut), using(kit::proofs::Fields::field_lt))]
fn body_of(bytes: &[u8]) -> Option<&[u8]>
    ensures { MatchOption result (is_cut bytes.now ≡ true) (λ b. (is_cut bytes.now ≡ false) × (b.now ≡ body_of bytes.now)) }
{
    let rest = bytes.get(3..)?;
    let length = kit::read_field(bytes, 1, 2) as usize;
    rest.get(..length)
}

// The step of a body, by its code: each arm says how many bytes the body must have, and who reads it.
// Stays: document 01 names the form: "Step code matched over eight values and ranges, choosing body length and step".
#[tactic(auto, unfolding(crate::specs::Records::asked, crate::specs::Records::body_read, crate::specs::Records::brief_of))]
fn read_body(code: u8, body: &[u8]) -> Result<Brief, Refusal>
    ensures { whole_brief (length body.now) result ≡ brief_of (body_read code body.now (3 + length body.now)) }
{
    match code {
        1 if body.len() == begin_length(body) => Ok(read_begin(body)),
        2 if body.len() == 7 => Ok(read_tell(body)),
        3..=4 if body.len() == 1 => Ok(read_one_place(code, body)),
        5..=6 if body.len() == 1 => Ok(read_one_site(code, body)),
        7 if body.len() == 5 => Ok(read_retire(body)),
        8 if body.len() == 2 => Ok(read_read(body)),
        1..=8 => Err(Refusal::WrongRecord),
        0 | 9..=255 => Err(Refusal::NoSuchStep),
    }
}

// The record that bytes start with, none where it is cut: an unknown code is 2, else a wrong length is 17.
#[tactic(auto, unfolding(crate::specs::Records::record_of), using(crate::proofs::Laws::has_header, crate::proofs::Laws::length_body, kit::proofs::Fields::field_lt))]
pub fn read_brief(bytes: &[u8]) -> Option<Whole<Brief>>
    ensures { brief_read result ≡ brief_of (record_of bytes.now) }
{
    let body = body_of(bytes)?;
    Some(Whole {
        length: body.len() as u16,
        step: read_body(bytes[0], body),
    })
}

// The body of the begin that bytes start with; none where the record is another step or refused.
#[tactic(auto, unfolding(crate::specs::Records::asked, crate::specs::Records::body_read, crate::specs::Records::record_of, crate::specs::Bodies::tell_step, crate::specs::Bodies::place_step, crate::specs::Bodies::site_step, crate::specs::Bodies::retire_step, crate::specs::Bodies::read_step), using(crate::proofs::Laws::has_header))]
fn begin_of(bytes: &[u8]) -> Option<&[u8]>
    ensures { MatchOption result (numberless (record_of bytes.now).step) (λ b. begin_step b.now ≡ (record_of bytes.now).step) }
{
    let body = body_of(bytes)?;
    if bytes[0] == 1 && body.len() == begin_length(body) {
        Some(body)
    } else {
        None
    }
}

// The stamps and values, by item, of the begin that bytes start with, into two arrays that are lent; 0 where it is another step or refused.
pub fn read_numbers(bytes: &[u8], stamps: &mut [u64; 24], values: &mut [i32; 24])
    ensures stamps { stamps.new ≡ (record_of bytes.now).step.stamps }
    ensures values { values.new ≡ (record_of bytes.now).step.values }
{
    *stamps = [0; 24];
    *values = [0; 24];
    if let Some(body) = begin_of(bytes) {
        begin_numbers(body, stamps, values);
    }
}

// The same record with a begin's stamps and values.
pub fn read_record(bytes: &[u8]) -> Option<Whole<Step>>
    ensures { record_read result ≡ record_of bytes.now }
{
    let whole = read_brief(bytes)?;
    let mut stamps = [0u64; 24];
    let mut values = [0i32; 24];
    read_numbers(bytes, &mut stamps, &mut values);
    Some(Whole {
        length: whole.length,
        step: whole.step.map(|brief| brief.with(stamps, values)),
    })
}
