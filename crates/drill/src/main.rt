// Repeats one call on a full table, so that it can be timed: drill WHAT COUNT, where WHAT is one of
//     sound      the soundness test
//     read       the step read
//     tell       the steps drop and tell in turn, of one message
//     deliver    the step deliver, of a message that came before
// It prints WHAT, COUNT and whether each call gave what it should. scripts/speed times it.
#![tactic(auto)]

use record::{Step, blank_step};
use std::env::FillError;
use std::io;
use std::ops::{Range, RangeInclusive};
use std::rt::Env;
use steps::step::step;
use table::data::Table;
use table::fresh::fresh;
use table::sound::sound;

const ALL: u32 = 0xff_ffff;

// A step on the table; a refused one leaves it as it is.
fn go(t: &mut Table, a: Step) {
    let _ = step(t, a);
}

// The step tell.
fn tell_step(site: u8, stamp: u64, to: u8) -> Step {
    Step {
        code: 2,
        site,
        stamp,
        to,
        ..blank_step()
    }
}

// The step deliver or drop, by its code.
fn message_step(code: u8, place: u8) -> Step {
    Step {
        code,
        place,
        ..blank_step()
    }
}

// The step read.
fn read_step(site: u8, item: u8) -> Step {
    Step {
        code: 8,
        site,
        item,
        ..blank_step()
    }
}

// A request begun at a site, its base stamps all the same.
// Stays: the parts of a begin one by one, since the struct that they go into, `Step`, is what is made here.
fn begin(t: &mut Table, site: u8, clock: u32, base: u32, update: u32, stamp: u64) {
    let begun = Step {
        code: 1,
        site,
        clock,
        base,
        update,
        stamps: [stamp; 24],
        values: [-350; 24],
        ..blank_step()
    };
    go(t, begun);
}

// Told, delivered and dropped, where the first message place is free.
fn pass_on(t: &mut Table, site: u8, stamp: u64, to: u8) {
    go(t, tell_step(site, stamp, to));
    go(t, message_step(3, 0));
    go(t, message_step(4, 0));
}

// Told to each of these sites.
fn tell_each(t: &mut Table, site: u8, stamp: u64, sites: RangeInclusive<u8>) {
    for to in sites {
        go(t, tell_step(site, stamp, to));
    }
}

// The same step, deliver or drop, of each message.
fn each_message(t: &mut Table, code: u8) {
    for place in 0..64 {
        go(t, message_step(code, place));
    }
}

// Request 801, on all 24 items, is accepted everywhere: each of the seven sites has measured all of them.
fn measure(t: &mut Table) {
    begin(t, 1, 100, ALL, ALL, 0);
    pass_on(t, 1, 801, 2);
    pass_on(t, 2, 801, 3);
    pass_on(t, 3, 801, 4);
    tell_each(t, 4, 801, 1..=7);
    each_message(t, 3);
    each_message(t, 4);
}

// Request 815 of site 7, on the first eight items, is pending at sites 2 to 7.
fn block(t: &mut Table) {
    begin(t, 7, 101, 0xff, 0xff, 801);
    pass_on(t, 7, 815, 6);
    tell_each(t, 7, 815, 2..=5);
    each_message(t, 3);
}

// Eight requests of site 1, each on one of these items; sites 2 to 7 defer them.
fn begin_eight(t: &mut Table) {
    for i in 0..8 {
        let item = 1 << i;
        begin(t, 1, 200 + i, 0xff_ff00 | item, item, 801);
    }
}

// Six requests more of site 1, which votes DR on them.
fn begin_six(t: &mut Table) {
    for i in 300..306 {
        begin(t, 1, i, ALL, 1, 801);
    }
}

// The requests that site 1 began at these times, each told to the sites from 2 to the last.
fn tell_all(t: &mut Table, times: Range<u32>, last: u8) {
    for time in times {
        tell_each(t, 1, 8 * u64::from(time) + 1, 2..=last);
    }
}

// A full table: 7 sites, 16 requests, 64 messages, eight requests queued at each of six sites.
fn full() -> Table {
    let mut t = fresh(7).table;
    measure(&mut t);
    block(&mut t);
    begin_eight(&mut t);
    begin_six(&mut t);
    tell_all(&mut t, 200..208, 7);
    each_message(&mut t, 3);
    tell_all(&mut t, 300..306, 3);
    t
}

// Whether each of so many soundness tests passes. The first site's last t changes from turn to turn, so that no turn can be left out.
fn repeat_sound(t: &mut Table, count: u64) -> bool {
    (0..count).all(|i| {
        t.sites[0].last = (1000 + i % 8) as u32;
        sound(t)
    })
}

// Whether each of so many steps, a and b in turn, is done.
fn repeat_step(t: &mut Table, a: Step, b: Step, count: u64) -> bool {
    (0..count).all(|i| step(t, if i % 2 == 0 { a } else { b }).is_ok())
}

// The number that decimal digits stand for, its last nine; another byte counts as the digit 0.
fn number_of(digits: &[u8]) -> u64 {
    digits.iter().fold(0, |n, b| {
        let digit = char::from(*b).to_digit(10).unwrap_or(0);
        n % 100_000_000 * 10 + u64::from(digit)
    })
}

// Prints what a call gave that many times.
fn show(rt: HostRuntime, what: &[u8], count: u64) -> io::Result<()> {
    let t = &mut full();
    let read = read_step(3, 5);
    let tell = tell_step(1, 2441, 3);
    let deliver = message_step(3, 20);
    let lose = message_step(4, 63);
    let (name, good) = match what {
        b"sound" => ("sound", repeat_sound(t, count)),
        b"read" => ("read", repeat_step(t, read, read, count)),
        b"tell" => ("tell", repeat_step(t, lose, tell, count)),
        b"deliver" => ("deliver", repeat_step(t, deliver, deliver, count)),
        _ => return eprintln!(rt; "drill: no such call"),
    };
    println!(rt; "{name} {count} {good}")
}

// Stays: the arguments are read one by one into fixed memory, since `env::args` puts them on the heap.
fn main(rt: HostRuntime) -> io::Result<()> {
    let mut what = [0; 4096];
    let mut count = [0; 4096];
    let first = rt.arg(1, &mut what);
    let second = rt.arg(2, &mut count);
    let third = rt.arg(3, &mut []);
    if matches!(second, Err(FillError::NotPresent))
        || !matches!(third, Err(FillError::NotPresent))
    {
        return eprintln!(rt; "usage: drill WHAT COUNT");
    }
    show(
        rt,
        &what[..first.unwrap_or(0)],
        number_of(&count[..second.unwrap_or(0)]),
    )
}
