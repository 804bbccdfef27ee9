// What is not of the watch trade: little-endian fields in byte slices.
// The definitions are in specs/, the laws that every other crate cites in proofs/; README.md beside this folder lists them.
#![tactic(auto)]

ghost use Rattle.std.specs.Prelude.{◌≡◌, ◌+◌, leb};
ghost use Rattle.kit.specs.Lists.{placed};
ghost use Rattle.kit.specs.Bytes.{bytes_of, field_at};

// Whether n bytes from a place on end inside a slice of so many.
pub fn ends_inside(len: usize, at: usize, n: usize) -> bool
    ensures { result ≡ leb (at + n) len }
{
    n <= len && at <= len - n
}

// The number of n bytes at a place; 0 where they are more than 8 or do not end inside the slice.
#[tactic(auto, unfolding(crate::specs::Bytes::field_at))]
pub fn read_field(s: &[u8], at: usize, n: usize) -> u64
    ensures { result ≡ field_at s.now at n }
{
    if 8 < n || !ends_inside(s.len(), at, n) {
        return 0;
    }
    let mut v: u64 = 0;
    // Stays: tried `s[at..at + n].iter().rev().copied()`; that `v * 256` fits stayed open, since the bound comes from the place of a byte.
    for k in (0..n).rev() {
        v = v * 256 + u64::from(s[at + k]);
    }
    v
}

// The n low bytes of a number, written at a place, where they end inside the buffer; nothing else changes.
pub fn write_field(d: &mut [u8], at: usize, n: usize, v: u64)
    ensures { d.new ≡ placed d.old at (bytes_of n v) }
{
    if !ends_inside(d.len(), at, n) {
        return;
    }
    let mut rest = v;
    for b in &mut d[at..at + n] {
        *b = (rest % 256) as u8;
        rest /= 256;
    }
}
