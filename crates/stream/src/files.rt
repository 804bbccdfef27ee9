// The file of each site, siteN.six, written into the current folder.
ghost use Rattle.std.specs.Prelude.{◌+◌, ◌≤◌, ◌<◌, true, ◌≡◌, length, take};
ghost use Rattle.stream.specs.Counts.{IsPrefixLen};
ghost use Rattle.sitefile.specs.Entries.{file_of};
ghost use Rattle.table.specs.Places.{site_at};
ghost use Rattle.table.specs.Sound.{sound_table};

use sitefile::write_site_file;
use std::fs;
use table::data::Table;

// The name of the file of site k, whose digit is k + 1.
// Stays: a name that is made would be a String on the heap.
const NAMES: [&str; 7] = [
    "site1.six",
    "site2.six",
    "site3.six",
    "site4.six",
    "site5.six",
    "site6.six",
    "site7.six",
];

// The file of the copy of site k, whose digit is k + 1, at the front of a buffer; its length. The copy of a sound table is never refused.
#[tactic(auto, using(crate::proofs::Laws::sound_few))]
fn write_copy(t: &Table, k: u8, buffer: &mut [u8]) -> usize
    requires sound { sound_table t.now ≡ true }
    requires used { k < t.now.count }
    requires room { 248 ≤ length buffer.old }
    ensures inside { IsPrefixLen result buffer.new }
    ensures file { take result buffer.new ≡ file_of (k + 1) (site_at t.now k).stamps (site_at t.now k).values }
{
    let site = &t.sites[usize::from(k)];
    write_site_file(buffer, k + 1, &site.stamps, &site.values).unwrap_or(0)
}

// Writes the file of site k, or says that it cannot.
#[tactic(auto, using(crate::proofs::Laws::sound_few))]
fn save_copy(rt: HostRuntime, t: &Table, k: u8)
    requires sound { sound_table t.now ≡ true }
    requires used { k < t.now.count }
{
    let name = NAMES[usize::from(k)];
    // No site file is longer than 248 bytes.
    let mut buffer = [0; 248];
    let n = write_copy(t, k, &mut buffer);
    if fs::write(&rt, name, &buffer[..n]).is_err() {
        let _ = eprintln!(rt; "site_files: cannot write {name}");
    }
}

// Writes the file of each site.
pub(crate) fn save_copies(rt: HostRuntime, t: &Table)
    requires { sound_table t.now ≡ true }
{
    for k in 0..t.count {
        save_copy(rt, t, k);
    }
}
