// The published vectors of FNV-1a, 32 bits: a check in hexadecimal for each, one to a line.
#![tactic(auto)]

use std::io;

fn main(rt: HostRuntime) -> io::Result<()> {
    let texts = [
        "",
        "a",
        "b",
        "c",
        "d",
        "e",
        "f",
        "fo",
        "foo",
        "foob",
        "fooba",
        "foobar",
        "chongo was here!\n",
    ];
    for text in texts {
        println!(rt; "{:08x}", fnv::check(text.as_bytes()))?;
    }
    Ok(())
}
