// Prints a site file, one line a measured item: item, movement, position, stamp, t, site digit, value; or `refused 18`.
#![tactic(auto)]

ghost use Rattle.std.specs.Io.{ReadsAtMost};

use readings::{movement_of, position_of};
use sitefile::{SiteFile, read_site_file};
use stamps::{digit_of, time_of};
use std::env::FillError;
use std::fs::File;
use std::io::{Read, Stderr, Stdout};
use std::rt::Env;
use std::{io, str};

// The line of an item.
fn print_item(output: Stdout, item: u8, stamp: u64, value: i32) -> io::Result<()> {
    let movement = movement_of(item);
    let position = position_of(item);
    let t = time_of(stamp);
    let digit = digit_of(stamp);
    println!(output; "{item} {movement} {position} {stamp} {t} {digit} {value}")
}

// The lines of a file.
fn print_file(output: Stdout, file: &SiteFile) -> io::Result<()> {
    for (item, (&stamp, &value)) in (0..).zip(file.stamps.iter().zip(&file.values)) {
        if stamp != 0 {
            print_item(output, item, stamp, value)?;
        }
    }
    Ok(())
}

fn cannot_read(errors: Stderr, path: &[u8]) -> io::Result<()> {
    errors.write_all(b"site_show: cannot read ")?;
    errors.write_all(path)?;
    errors.write_all(b"\n")
}

// Reads until the buffer is full or the file ends; how many bytes there are then. After an error nothing is known of the buffer.
// Stays: a loop of our own, since std's `read_to_end` puts what it reads on the heap.
fn read_full(file: &mut File, buf: &mut [u8]) -> io::Result<usize>
    ensures { ReadsAtMost result buf.new }
{
    let mut done = 0;
    while done < buf.len() {
        match file.read(&mut buf[done..])? {
            0 => break,
            n => done += n,
        }
    }
    Ok(done)
}

// The front of the file of that name, read into a buffer; how many bytes there are then. A name that is no text names no file.
fn read_front(rt: HostRuntime, path: &[u8], buf: &mut [u8]) -> io::Result<usize>
    ensures { ReadsAtMost result buf.new }
{
    let name = str::from_utf8(path).map_err(|_| io::Error::from(io::ErrorKind::InvalidFilename))?;
    let mut file = File::open(&rt, name)?;
    read_full(&mut file, buf)
}

// Prints the file of that name. No site file is longer than 248 bytes: one byte more is read, so that a longer file is refused.
fn show(rt: HostRuntime, path: &[u8]) -> io::Result<()> {
    let mut buf = [0; 249];
    let Ok(n) = read_front(rt, path, &mut buf) else {
        return cannot_read(rt.stderr(), path);
    };
    match read_site_file(&buf[..n]) {
        Ok(file) => print_file(rt.stdout(), &file),
        Err(refusal) => println!(rt; "refused {}", refusal.number()),
    }
}

// Stays: the arguments are read one by one into fixed memory, since `env::args` puts them on the heap.
fn main(rt: HostRuntime) -> io::Result<()> {
    let mut path = [0; 4096];
    let first = rt.arg(1, &mut path);
    let second = rt.arg(2, &mut []);
    if matches!(first, Err(FillError::NotPresent))
        || !matches!(second, Err(FillError::NotPresent))
    {
        return eprintln!(rt; "usage: site_show FILE");
    }
    show(rt, &path[..first.unwrap_or(0)])
}
