// A night from standard input to standard output: what the programs share. All that is said of the table and of the lines is said of
// `steps::run`; what a read brings and where a write goes no contract can say, so the public calls give nothing back.
#![tactic(auto)]

mod files;

ghost use Rattle.std.specs.Prelude.{◌≤◌, ◌≡◌, true, pos, length, take, IfOk};
ghost use Rattle.lines.specs.Lines.{line_of};
ghost use Rattle.refusals.specs.Numbers.{number_of};
ghost use Rattle.stream.specs.Counts.{IsPrefixLen};
ghost use Rattle.table.specs.Meaning.{ShapedTable};
ghost use Rattle.table.specs.Sound.{sound_table};
ghost use Rattle.stream.specs.Stands.{Stands};

use crate::files::save_copies;
use lines::write_refused;
use refusals::Refusal;
use std::io;
use std::io::{Read, Stdin, Stdout};
use steps::run::run;
use table::data::Table;
use table::fresh::fresh;

// Stays: `at` and `end` stand beside no buffer of their own, since the memory is fixed: a slice lent into it could not live across the next read.
// Where a night stands: the table, the number of the next record, and where in the buffer the bytes that wait begin and end.
#[derive(Clone, Copy)]
struct Standing {
    table: Table,
    next: u64,
    at: usize,
    end: usize,
}

impl Standing {
    // Answers the records that are whole among the bytes that wait, as far as the output has room, and prints their lines; how many bytes
    // they took. The table is sound, so that the run is not refused.
    fn answer_some(&mut self, output: Stdout, buf: &[u8], out: &mut [u8]) -> io::Result<usize>
        requires { Stands self.old.table self.old.at self.old.end (length buf.now) }
        ensures { Stands self.new.table self.new.at self.new.end (length buf.now) }
    {
        let ran = run(&mut self.table, self.next, &buf[self.at..self.end], out).unwrap();
        self.next = ran.next;
        self.at += ran.taken;
        output.write_all(&out[..ran.written])?;
        Ok(ran.taken)
    }

    // Moves the bytes that wait to the front and reads once behind them; whether any came. A read that fails brings nothing.
    fn refill(&mut self, mut input: Stdin, buf: &mut [u8]) -> bool
        requires { Stands self.old.table self.old.at self.old.end (length buf.old) }
        ensures { Stands self.new.table self.new.at self.new.end (length buf.new) }
    {
        let have = self.end - self.at;
        // Nothing moves where the bytes are at the front already: a long record that comes in small pieces would be copied for each of them.
        if self.at != 0 {
            buf.copy_within(self.at..self.end, 0);
        }
        let n = input.read(&mut buf[have..]).unwrap_or(0);
        self.at = 0;
        self.end = have + n;
        n != 0
    }
}

// The line of a record that gave a number and no more, at the front of a buffer; its length. No line is longer than 89 bytes.
fn write_refusal(line: &mut [u8; 89], nth: u64, refusal: Refusal) -> usize
    ensures inside { IsPrefixLen result line.new }
    ensures line { take result line.new ≡ line_of nth (number_of refusal) (pos 0) 0 0 0 }
{
    write_refused(line, 0, nth, refusal.number())
}

// The same line, printed. It is a night's last, so that nothing is left to do where it cannot be printed.
fn print_refusal(output: Stdout, nth: u64, refusal: Refusal) {
    let mut line = [0; 89];
    let n = write_refusal(&mut line, nth, refusal);
    let _ = output.write_all(&line[..n]);
}

// Answers record after record until the input ends, and then the record that is cut there, if one is; or until lines cannot be printed.
// Stays: that the table is sound is asked here and in `files`; a type for a sound table would be no plainer, since `steps::run` takes a plain one and it would be opened for each call.
#[tactic(auto, using(crate::proofs::Laws::begins))]
fn answer_all(input: Stdin, output: Stdout, table: Table) -> Table
    requires sound { sound_table table ≡ true }
    requires shaped { ShapedTable table }
    ensures { sound_table result ≡ true }
{
    // No record is longer than 65,538 bytes.
    let mut buf = [0; 131072];
    let mut out = [0; 65536];
    let mut s = Standing {
        table,
        next: 1,
        at: 0,
        end: 0,
    };
    // Stays: `for` and not `loop`, since a loop must be seen to end, and an input may go on for ever.
    for _ in 0..u64::MAX {
        let Ok(taken) = s.answer_some(output, &buf, &mut out) else {
            return s.table;
        };
        if taken == 0 && !s.refill(input, &mut buf) {
            break;
        }
    }
    if s.at < s.end {
        print_refusal(output, s.next, Refusal::WrongRecord);
    }
    s.table
}

// Reads the site count and then records, and prints a line for each; the table as the last record left it.
#[tactic(auto, using(crate::proofs::Laws::fresh_sound, crate::proofs::Laws::fresh_shaped))]
fn run_night(mut input: Stdin, output: Stdout) -> Result<Table, Refusal>
    ensures { IfOk result (λ t. sound_table t ≡ true) }
{
    let mut first = [0; 1];
    if input.read(&mut first).unwrap_or(0) == 0 {
        return Err(Refusal::WrongRecord);
    }
    let start = fresh(first[0]);
    if start.number != 0 {
        return Err(Refusal::NoSuchSite);
    }
    Ok(answer_all(input, output, start.table))
}

// Reads the site count and then records, and prints a line for each.
pub fn print_night(input: Stdin, output: Stdout)
    ensures { result ≡ tt }
{
    if let Err(refusal) = run_night(input, output) {
        print_refusal(output, 0, refusal);
    }
}

// The same, and then writes the file of each site, unless the night was refused.
pub fn print_night_and_files(rt: HostRuntime)
    ensures { result ≡ tt }
{
    match run_night(rt.stdin(), rt.stdout()) {
        Ok(table) => save_copies(rt, &table),
        Err(refusal) => print_refusal(rt.stdout(), 0, refusal),
    }
}
