// Runs a night from standard input as the bench program does, and then writes the file of each site, siteN.six, into the current folder.
#![tactic(auto)]

use std::env::FillError;
use std::io;
use std::rt::Env;

// Stays: the argument is asked for by its number, since `env::args` puts all of them on the heap.
fn main(rt: HostRuntime) -> io::Result<()> {
    if !matches!(rt.arg(1, &mut []), Err(FillError::NotPresent)) {
        return eprintln!(rt; "usage: site_files < RECORDS");
    }
    stream::print_night_and_files(rt);
    Ok(())
}
