// A night from bytes to bytes. To refuse before anything is written it is gone through twice: once for the length of its lines, which are
// kept nowhere, and once to write them.
ghost use Rattle.std.specs.Prelude.{◌≡◌, ◌≤◌, ◌<◌, length, IfSome};
ghost use Rattle.steps.specs.Night.{last_line, lines_from, night_of};
ghost use Rattle.steps.proofs.Upkeep.{Well};
ghost use Rattle.kit.specs.Lists.{put, placed};
ghost use Rattle.house.specs.Ways.{Ready, Led};
ghost use Rattle.house.specs.House.{room_after, room_answer, night_length, night_printed, night_into, print_answer};

use lines::{refused_length, write_refused};
use refusals::Refusal;
use steps::run::run;
use table::data::Table;
use table::fresh::fresh;

// Where the way through the records of a night stands: the table, the number of the next record, and the bytes that are left.
#[derive(Clone, Copy)]
struct Records<'a> {
    table: Table,
    next: u64,
    rest: &'a [u8],
}

impl Records<'_> {
    // Answers records as far as the buffer has room for their lines, and writes these at its front; how many bytes they are, or none
    // where no record is whole.
    fn answer(&mut self, lines: &mut [u8]) -> Option<usize>
        requires { Ready self.old.table self.old.next self.old.rest.now (length lines.old) }
        ensures ready { Ready self.new.table self.new.next self.new.rest.now (length lines.new) }
        ensures lines { Led (lines_from self.old.table self.old.next self.old.rest.now) result lines.new self.new.table self.new.next self.new.rest.now }
        ensures less { IfSome result (λ n. length self.new.rest.now < length self.old.rest.now) }
    {
        let ran = run(&mut self.table, self.next, self.rest, lines).unwrap();
        if ran.taken == 0 {
            return None;
        }
        self.next = ran.next;
        self.rest = &self.rest[ran.taken..];
        Some(ran.written)
    }
}

// ---- the line of a record that is cut

// How many bytes it has, where any bytes are left.
#[tactic(auto, using(crate::proofs::Rooms::last_none, crate::proofs::Rooms::last_some))]
fn last_length(nth: u64, rest: &[u8]) -> usize
    ensures { result ≡ length (last_line nth rest.now) }
{
    if rest.is_empty() {
        return 0;
    }
    refused_length(nth, Refusal::WrongRecord.number())
}

// The same line, written at a place where it ends inside the buffer.
#[tactic(auto, using(crate::proofs::Rooms::last_none, crate::proofs::Rooms::last_some, crate::proofs::Rooms::placed_none))]
fn write_last(output: &mut [u8], at: usize, nth: u64, rest: &[u8])
    ensures { output.new ≡ placed output.old at (last_line nth rest.now) }
{
    if !rest.is_empty() {
        write_refused(output, at, nth, Refusal::WrongRecord.number());
    }
}

// ---- once for the length

// What the lines of all records leave of a room.
fn room_after_records(fresh: Table, input: &[u8], room: usize) -> Option<usize>
    requires { Well fresh }
    ensures { room_answer result ≡ room_after room (length (lines_from fresh 1 input.now)) }
{
    let mut lines = [0; 4096];
    let mut records = Records {
        table: fresh,
        next: 1,
        rest: input,
    };
    let mut left = room;
    while let Some(n) = records.answer(&mut lines) {
        left = left.checked_sub(n)?;
    }
    left.checked_sub(last_length(records.next, records.rest))
}

// What the lines of a night leave of a room.
fn room_after_night(input: &[u8], room: usize) -> Option<usize>
    ensures { room_answer result ≡ room_after room (length (night_of input.now)) }
{
    let Some((count, records)) = input.split_first() else {
        return room.checked_sub(refused_length(0, Refusal::WrongRecord.number()));
    };
    let f = fresh(*count);
    if f.number != 0 {
        return room.checked_sub(refused_length(0, f.number));
    }
    room_after_records(f.table, records, room)
}

// ---- once to write

// The lines of all records, written at the front.
fn write_records(fresh: Table, input: &[u8], output: &mut [u8])
    requires well { Well fresh }
    requires input_in_bounds { length (lines_from fresh 1 input.now) ≤ length output.old }
    ensures { output.new ≡ put output.old 0 (lines_from fresh 1 input.now) }
{
    let mut lines = [0; 4096];
    let mut records = Records {
        table: fresh,
        next: 1,
        rest: input,
    };
    let mut to = 0;
    while let Some(n) = records.answer(&mut lines) {
        output[to..to + n].copy_from_slice(&lines[..n]);
        to += n;
    }
    write_last(output, to, records.next, records.rest);
}

// The lines of a night, written at the front.
fn write_night(input: &[u8], output: &mut [u8])
    requires { length (night_of input.now) ≤ length output.old }
    ensures { output.new ≡ put output.old 0 (night_of input.now) }
{
    let Some((count, records)) = input.split_first() else {
        write_refused(output, 0, 0, Refusal::WrongRecord.number());
        return;
    };
    let f = fresh(*count);
    if f.number != 0 {
        write_refused(output, 0, 0, f.number);
        return;
    }
    write_records(f.table, records, output);
}

// ---- the night

// How many bytes the lines of a night are; the largest number there is where they are more.
pub fn night_length(input: &[u8]) -> usize
    ensures { result ≡ night_length input.now }
{
    usize::MAX - room_after_night(input, usize::MAX).unwrap_or(0)
}

// The lines of a night at the front of an output, where it has room for all of them; how many bytes they are.
pub fn print_night(input: &[u8], output: &mut [u8]) -> Result<usize, Refusal>
    ensures answer { print_answer result ≡ night_printed input.now (length output.old) }
    ensures bytes { output.new ≡ night_into input.now output.old }
{
    let room = output.len();
    let left = room_after_night(input, room).ok_or(Refusal::NotWritten)?;
    write_night(input, output);
    Ok(room - left)
}
