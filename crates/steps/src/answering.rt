// Records answered one after the other on a table that is sound.
ghost use Rattle.std.specs.Prelude.{◌≡◌, cond, [], ◌+◌, ◌≤◌, length, Option, Some};
ghost use Rattle.kit.specs.Lists.{put, placed};
ghost use Rattle.lines.specs.Counts.{counted};
ghost use Rattle.lines.specs.Lines.{decimal_of, fitted};
ghost use Rattle.plans.specs.Answers.{answer_from};
ghost use Rattle.plans.specs.Free.{free_among};
ghost use Rattle.record.specs.Records.{record_of, brief_of, brief_read};
ghost use Rattle.steps.specs.Answers.{stepped_from};
ghost use Rattle.steps.specs.Night.{answered_on, line_for, is_full, part_from, ran_as, ran_of, told_of};

use crate::acting::take_step;
use crate::run::Ran;
use lines::{Told, count_from, count_on, write_counted};
use plans::answer::Results;
use plans::free::FreePlaces;
use record::{Brief, Whole, read_brief, read_numbers};
use refusals::{Refusal, answer_number};
use table::data::Table;

// Whether there is no room for another line, or no number for another record.
#[tactic(auto, unfolding(crate::specs::Night::is_full))]
fn is_full(room: usize, nth: u64) -> bool
    ensures { result ≡ is_full room nth }
{
    room < 89 || nth == u64::MAX
}

// The record that the bytes start with; where there is no room for its line, or no number for it, it is left unread.
#[tactic(auto, using(record::proofs::Briefs::nothing_left))]
fn read_next(room: usize, nth: u64, bytes: &[u8]) -> Option<Whole<Brief>>
    ensures { brief_read result ≡ brief_of (record_of (cond (is_full room nth) [] bytes.now)) }
{
    if is_full(room, nth) {
        None
    } else {
        read_brief(bytes)
    }
}

// The answer to the record that the bytes start with, which was read as r. The arrays take the stamps and values of a begin, and keep them,
// which no other step looks at.
fn answer(
    t: &mut Table,
    free: &mut FreePlaces,
    r: Whole<Brief>,
    bytes: &[u8],
    stamps: &mut [u64; 24],
    values: &mut [i32; 24],
) -> Result<Results, Refusal>
    requires few { t.old.count ≤ 7 }
    requires free { free.old ≡ free_among t.old.messages }
    requires read { brief_read (Some r) ≡ brief_of (record_of bytes.now) }
    ensures free { free.new ≡ free_among t.new.messages }
    ensures answer { stepped_from result t.new ≡ answered_on t.old (record_of bytes.now) }
{
    let brief = r.step?;
    if brief.code == 1 {
        read_numbers(bytes, stamps, values);
    }
    take_step(t, free, brief, stamps, values)
}

// What the line of an answer tells.
fn told_of(answer: Result<Results, Refusal>) -> Told
    ensures { result ≡ told_of (answer_from answer) }
{
    let r = answer.unwrap_or(Results::quiet(0, 0));
    Told {
        number: answer_number(answer),
        first: r.first,
        second: r.second,
        accepted: r.accepted,
        rejected: r.rejected,
    }
}

// The line of an answer, written at a place; its length. The record number is also there in its digits.
// Stays: buffer, place and digits one by one, as the public `lines::write_counted` takes them; a struct for this one call would be no plainer.
fn write_answer(
    output: &mut [u8],
    at: usize,
    digits: &[u8],
    len: usize,
    nth: u64,
    answer: Result<Results, Refusal>,
) -> usize
    requires room { at + 89 ≤ length output.old }
    requires digits { counted digits.now len nth ≡ decimal_of nth }
    ensures answer { result ≡ fitted output.old at (line_for nth (answer_from answer)) }
    ensures bytes { output.new ≡ placed output.old at (line_for nth (answer_from answer)) }
    ensures short { length (line_for nth (answer_from answer)) ≤ 89 }
{
    write_counted(output, at, digits, len, nth, &told_of(answer))
}

// Answers record after record of the input, while one is whole and there is room for its line. The number of the next record is also kept as its
// digits.
pub(crate) fn answer_all(t: &mut Table, nth: u64, input: &[u8], output: &mut [u8]) -> Ran
    requires { t.old.count ≤ 7 }
    ensures answer { ran_of result t.new ≡ ran_as (part_from t.old nth input.now (length output.old)) }
    ensures bytes { output.new ≡ put output.old 0 (part_from t.old nth input.now (length output.old)).lines }
    ensures inside { (result.taken ≤ length input.now) × (result.written ≤ length output.old) }
{
    let room = output.len();
    let mut stamps = [0; 24];
    let mut values = [0; 24];
    let mut free = FreePlaces::among(&t.messages);
    let mut digits = [b'0'; 8];
    let mut len = count_from(&mut digits, nth);
    let mut taken = 0;
    let mut written = 0;
    let mut next = nth;
    while let Some(r) = read_next(room - written, next, &input[taken..]) {
        let answer = answer(t, &mut free, r, &input[taken..], &mut stamps, &mut values);
        written += write_answer(output, written, &digits, len, next, answer);
        next += 1;
        len = count_on(&mut digits, len, next);
        taken += r.size();
    }
    Ran {
        taken,
        written,
        next,
    }
}
