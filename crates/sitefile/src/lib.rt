// The site file: reader and writer.
#![tactic(auto)]

ghost use Rattle.std.specs.Prelude.{◌≡◌, ◌+◌, ◌≤◌, ◌<◌, ◌++◌, pos, length, get_or, take, drop};
ghost use Rattle.kit.specs.Range.{any, number};
ghost use Rattle.kit.specs.Lists.{put};
ghost use Rattle.sitefile.specs.Frame.{joined, entry_at, trailer_of, checked, site_in, count_in, distance_in, check_in};
ghost use Rattle.sitefile.specs.Entries.{rate_form, measured, entries_of, file_of};
ghost use Rattle.sitefile.specs.Write.{wrong_item, not_written, file_written, buffer_after, write_answer};
ghost use Rattle.sitefile.specs.Read.{wrong_site, wrong_reading, wrong_check, rises as rising, wrong_entry, no_site_file, with_entry, told_file, file_read, file_answer};

use kit::{read_field, write_field};
use refusals::Refusal;

// An entry of a site file.
#[derive(Clone, Copy, Debug, PartialEq, Eq)]
struct Entry {
    item: u8,
    stamp: u64,
    value: i32,
}

// The numbers of a trailer.
#[derive(Clone, Copy, Debug, PartialEq, Eq)]
struct Trailer {
    site: u8,
    count: u8,
    distance: u16,
    check: u32,
}

// What a site file says: its site, and the stamps and values by item.
#[derive(Clone, Copy, Debug, PartialEq, Eq)]
pub struct SiteFile {
    pub site: u8,
    pub stamps: [u64; 24],
    pub values: [i32; 24],
}

// Whether a site is none of 1 to 7.
#[tactic(auto, unfolding(crate::specs::Read::wrong_site))]
fn is_wrong_site(site: u8) -> bool
    ensures { result ≡ wrong_site site }
{
    site < 1 || 7 < site
}

// Whether no measured item may have the stamp and the value.
#[tactic(auto, unfolding(crate::specs::Read::wrong_reading))]
fn is_wrong_reading(stamp: u64, value: i32) -> bool
    ensures { result ≡ wrong_reading stamp value }
{
    !stamps::is_issued_form(7, stamp) || !readings::is_in_range(value)
}

// ---- the reader

impl Trailer {
    // The numbers in the last 8 bytes.
    #[tactic(auto, unfolding(crate::specs::Frame::site_in, crate::specs::Frame::count_in, crate::specs::Frame::distance_in, crate::specs::Frame::check_in), using(kit::proofs::Fields::field_byte, kit::proofs::Fields::field_word, crate::proofs::Frames::field_half))]
    fn read(b: &[u8]) -> Trailer
        ensures site { result.site ≡ site_in b.now }
        ensures count { result.count ≡ count_in b.now }
        ensures distance { result.distance ≡ distance_in b.now }
        ensures check { result.check ≡ check_in b.now }
    {
        let end = b.len();
        Trailer {
            site: read_field(b, end.saturating_sub(8), 1) as u8,
            count: read_field(b, end.saturating_sub(7), 1) as u8,
            distance: read_field(b, end.saturating_sub(6), 2) as u16,
            check: read_field(b, end.saturating_sub(4), 4) as u32,
        }
    }
}

impl Entry {
    // Entry k.
    #[tactic(auto, unfolding(crate::specs::Frame::entry_at, crate::specs::Entries::rate_form), using(kit::proofs::Fields::field_byte, kit::proofs::Fields::field_word))]
    fn read(b: &[u8], k: u8) -> Entry
        ensures { result ≡ entry_at rate_form b.now k }
    {
        let at = 10 * usize::from(k);
        Entry {
            item: read_field(b, at, 1) as u8,
            stamp: read_field(b, at + 1, 5),
            value: (read_field(b, at + 6, 4) as u32).cast_signed(),
        }
    }

    // Written at a place.
    #[tactic(auto, using(crate::proofs::Writes::entry_put))]
    fn write(self, d: &mut [u8], at: usize)
        requires { at + 10 ≤ length d.old }
        ensures { d.new ≡ put d.old at (rate_form.bytes self) }
    {
        write_field(d, at, 1, u64::from(self.item));
        write_field(d, at + 1, 5, self.stamp);
        write_field(d, at + 6, 4, u64::from(self.value.cast_unsigned()));
    }
}

// Whether the check is not that of all bytes before it.
#[tactic(auto, unfolding(crate::specs::Read::wrong_check))]
fn is_wrong_check(b: &[u8]) -> bool
    ensures { result ≡ wrong_check b.now }
{
    let end = b.len().saturating_sub(4);
    Trailer::read(b).check != fnv::check(&b[..end])
}

// Whether the item of entry k is above that of the entry before it.
#[tactic(auto, using(crate::proofs::Taken::rises_first, crate::proofs::Taken::rises_next))]
fn rises(b: &[u8], k: u8) -> bool
    ensures { result ≡ rising (entry_at rate_form b.now) k }
{
    k == 0 || Entry::read(b, k - 1).item < Entry::read(b, k).item
}

// Whether entry k is wrong.
#[tactic(auto, unfolding(crate::specs::Read::wrong_entry))]
fn is_wrong_entry(b: &[u8], k: u8) -> bool
    ensures { result ≡ wrong_entry (entry_at rate_form b.now) k }
{
    let e = Entry::read(b, k);
    !rises(b, k) || 23 < e.item || is_wrong_reading(e.stamp, e.value)
}

// Whether one of n entries is wrong.
fn has_wrong_entry(b: &[u8], n: u8) -> bool
    ensures { result ≡ any n (wrong_entry (entry_at rate_form b.now)) }
{
    (0..n).any(|k| is_wrong_entry(b, k))
}

// Whether the bytes are refused as 18.
#[tactic(auto, unfolding(crate::specs::Read::no_site_file, crate::specs::Read::wrong_length, crate::specs::Read::wrong_distance))]
fn is_no_site_file(b: &[u8]) -> bool
    ensures { result ≡ no_site_file b.now }
{
    let t = Trailer::read(b);
    let size = 10 * usize::from(t.count);
    b.len() < 8
        || b.len() != size + 8
        || is_wrong_site(t.site)
        || 24 < t.count
        || usize::from(t.distance) != size
        || is_wrong_check(b)
        || has_wrong_entry(b, t.count)
}

impl SiteFile {
    // Takes in one entry more.
    fn store(&mut self, e: Entry)
        requires { e.item < 24 }
        ensures { told_file self.new ≡ with_entry (told_file self.old) e }
    {
        let i = usize::from(e.item);
        self.stamps[i] = e.stamp;
        self.values[i] = e.value;
    }
}

// The readings of a site file.
#[tactic(auto, unfolding(crate::specs::Read::file_read), using(crate::proofs::Stores::read_none, crate::proofs::Stores::read_more, crate::proofs::Taken::item_low))]
pub fn read_site_file(bytes: &[u8]) -> Result<SiteFile, Refusal>
    ensures { file_answer result ≡ file_read bytes.now }
{
    if is_no_site_file(bytes) {
        return Err(Refusal::NoSiteFile);
    }
    let t = Trailer::read(bytes);
    let mut f = SiteFile {
        site: t.site,
        stamps: [0; 24],
        values: [0; 24],
    };
    // Stays: by k, which names an entry as the definitions do; tried `chunks_exact(10)`: `8 ≤ length` stayed open for the trailer to come off, and it is no plainer.
    for k in 0..t.count {
        f.store(Entry::read(bytes, k));
    }
    Ok(f)
}

// ---- the writer

// Whether no item may be written with the stamp and the value.
#[tactic(auto, unfolding(crate::specs::Write::wrong_item, readings::specs::Readings::is_zero))]
fn is_wrong_item(stamp: u64, value: i32) -> bool
    ensures { result ≡ wrong_item stamp value }
{
    if stamp == 0 {
        value != 0
    } else {
        is_wrong_reading(stamp, value)
    }
}

// Whether one of the items may not be written.
fn has_wrong_item(stamps: &[u64; 24], values: &[i32; 24]) -> bool
    ensures { result ≡ any 24 (λ i. wrong_item (get_or stamps.now i 0) (get_or values.now i (pos 0))) }
{
    stamps
        .iter()
        .zip(values)
        .any(|(stamp, value)| is_wrong_item(*stamp, *value))
}

// How many items were measured. Each is added as 0 or 1.
// Stays: a sum by a loop: `filter` and `count` take a branch an item, and a file of five items 1,236 instructions and not 954 (docs/LOOK-BACK.md).
fn count_measured(stamps: &[u64; 24]) -> usize
    ensures count { result ≡ number 24 (measured stamps.now) }
    ensures few { result ≤ 24 }
{
    let mut count = 0;
    for stamp in stamps {
        count += usize::from(*stamp != 0);
    }
    count
}

// Whether the writer refuses as 19.
#[tactic(auto, unfolding(crate::specs::Write::not_written), using(crate::proofs::Rates::length_file))]
fn is_not_written(room: usize, site: u8, stamps: &[u64; 24], values: &[i32; 24]) -> bool
    ensures { result ≡ not_written room site stamps.now values.now }
{
    room < 10 * count_measured(stamps) + 8 || is_wrong_site(site) || has_wrong_item(stamps, values)
}

// The entries of the measured items, written at the front; the place behind them.
fn write_entries(d: &mut [u8], stamps: &[u64; 24], values: &[i32; 24]) -> usize
    requires { length (joined rate_form (entries_of stamps.now values.now)) ≤ length d.old }
    ensures { (result ≡ length (joined rate_form (entries_of stamps.now values.now))) × (d.new ≡ put d.old 0 (joined rate_form (entries_of stamps.now values.now))) }
{
    let mut at = 0;
    // Stays: `at` moves on at a measured item only, so that pieces of the buffer beside the items are no plainer.
    for (i, &stamp) in stamps.iter().enumerate() {
        if stamp != 0 {
            let entry = Entry {
                item: i as u8,
                stamp,
                value: values[i],
            };
            entry.write(d, at);
            at += 10;
        }
    }
    at
}

// The trailer behind the entries, which end at a place.
#[tactic(auto, using(crate::proofs::Writes::trailer_put))]
fn write_trailer(d: &mut [u8], at: usize, site: u8, n: usize)
    requires room { at + 8 ≤ length d.old }
    requires few { n ≤ 24 }
    ensures { d.new ≡ checked (take at d.old ++ trailer_of 10 site n) ++ drop (at + 8) d.old }
{
    write_field(d, at, 1, u64::from(site));
    write_field(d, at + 1, 1, n as u64);
    write_field(d, at + 2, 2, 10 * n as u64);
    let end = at + 4;
    let check = fnv::check(&d[..end]);
    write_field(d, end, 4, u64::from(check));
}

// The whole file, written at the front; its length.
fn write_file(d: &mut [u8], site: u8, stamps: &[u64; 24], values: &[i32; 24]) -> usize
    requires { length (file_of site stamps.now values.now) ≤ length d.old }
    ensures { (result ≡ length (file_of site stamps.now values.now)) × (d.new ≡ file_of site stamps.now values.now ++ drop (length (file_of site stamps.now values.now)) d.old) }
{
    let at = write_entries(d, stamps, values);
    write_trailer(d, at, site, count_measured(stamps));
    at + 8
}

// The readings of a site, written as a site file at the front of a buffer; the length of the file.
#[tactic(auto, unfolding(crate::specs::Write::file_written, crate::specs::Write::buffer_after), using(crate::proofs::Writes::has_room))]
pub fn write_site_file(
    buffer: &mut [u8],
    site: u8,
    stamps: &[u64; 24],
    values: &[i32; 24],
) -> Result<usize, Refusal>
    ensures answer { write_answer result ≡ file_written (length buffer.old) site stamps.now values.now }
    ensures bytes { buffer.new ≡ buffer_after buffer.old site stamps.now values.now }
{
    if is_not_written(buffer.len(), site, stamps, values) {
        return Err(Refusal::NotWritten);
    }
    Ok(write_file(buffer, site, stamps, values))
}
