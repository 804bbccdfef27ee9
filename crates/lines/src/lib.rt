// Numbers and answers as text, written into a lent buffer.
#![tactic(auto)]

ghost use Rattle.std.specs.Prelude.{◌≡◌, ◌+◌, ◌≤◌, ◌<◌, pos, length};
ghost use Rattle.kit.specs.Lists.{put, placed};
ghost use Rattle.lines.specs.Lines.{decimal_of, signed_of, field, line_of, back_of, fitted, Wrote};
ghost use Rattle.lines.specs.Counts.{is_kept, counted, counted_digits, counted_length, is_grown, one_more, digits_on, length_on, first_written, line_with, tail_of, told_line, ample_placed, ample_fitted};

// ---- numbers

// How many digits a number has.
#[tactic(auto, using(crate::proofs::Decimals::length_log, crate::proofs::Decimals::length_small))]
fn decimal_length(n: u64) -> usize
    ensures { result ≡ length (decimal_of n) }
{
    match n.checked_ilog10() {
        Some(log) => log as usize + 1,
        None => 1,
    }
}

// ---- fields

// The digits of a number, written at a place from the last to the first; the place behind them.
// Stays: `out` and a place, here and below, by what may not change: the public clauses say `placed out at ..` of the whole buffer.
fn write_decimal(out: &mut [u8], at: usize, n: u64) -> usize
    requires { at + length (decimal_of n) ≤ length out.old }
    ensures { Wrote out.old at (decimal_of n) result out.new }
{
    if n < 10 {
        out[at] = b'0' + n as u8;
        return at + 1;
    }
    let end = at + decimal_length(n);
    let mut rest = n;
    // Stays: tried `out[at..end].iter_mut().rev()`; the clause stayed open, since nothing is known of what is written through a turned `iter_mut`.
    for i in (at..end).rev() {
        out[i] = b'0' + (rest % 10) as u8;
        rest /= 10;
    }
    end
}

// Bytes as they are, written at a place; the place behind them.
#[tactic(auto, using(crate::proofs::Tails::part_wrote))]
fn write_bytes(out: &mut [u8], at: usize, bytes: &[u8]) -> usize
    requires { at + length bytes.now ≤ length out.old }
    ensures { Wrote out.old at bytes.now result out.new }
{
    out[at..at + bytes.len()].copy_from_slice(bytes);
    at + bytes.len()
}

// A number and the byte that ends it, written at a place; the place behind them.
fn write_number(out: &mut [u8], at: usize, n: u64, end: u8) -> usize
    requires { at + length (decimal_of n) < length out.old }
    ensures { Wrote out.old at (field (decimal_of n) end) result out.new }
{
    let p = write_decimal(out, at, n);
    out[p] = end;
    p + 1
}

// The same of a signed number.
fn write_signed(out: &mut [u8], at: usize, z: i64, end: u8) -> usize
    requires { at + length (signed_of z) < length out.old }
    ensures { Wrote out.old at (field (signed_of z) end) result out.new }
{
    let n = z.unsigned_abs();
    if 0 <= z {
        return write_number(out, at, n, end);
    }
    out[at] = b'-';
    write_number(out, at + 1, n, end)
}

// ---- the last three fields of a line

// These fields, written at a place; the place behind them.
// Stays: three fields one by one: they stand in `Told` beside what has been written already, and to hand on all of it would be no plainer.
fn write_back(out: &mut [u8], at: usize, second: u64, accepted: u32, rejected: u32) -> usize
    requires { at + length (back_of second accepted rejected) ≤ length out.old }
    ensures { Wrote out.old at (back_of second accepted rejected) result out.new }
{
    if second == 0 && accepted == 0 && rejected == 0 {
        return write_bytes(out, at, b"0 0 0\n");
    }
    let p = write_number(out, at, second, b' ');
    let q = write_number(out, p, u64::from(accepted), b' ');
    write_number(out, q, u64::from(rejected), b'\n')
}

// ---- the line of a record that gave a number and no more

// How many bytes it has: the digits of two numbers, a space behind each, and `0 0 0 0` with a newline.
// Stays: `number` is a u8 by what may not change: a caller may hand in any number, and the line has it (`line_of record number ..`).
pub fn refused_length(record: u64, number: u8) -> usize
    ensures { result ≡ length (line_of «record» number (pos 0) 0 0 0) }
{
    decimal_length(record) + decimal_length(u64::from(number)) + 10
}

// The line of a record that gave a number and no more, written at a place where it ends inside the buffer; its length. Where it does not,
// nothing changes and the length is 0.
// Stays: `number` is a u8 by what may not change, as above.
pub fn write_refused(out: &mut [u8], at: usize, record: u64, number: u8) -> usize
    ensures answer { result ≡ fitted out.old at (line_of «record» number (pos 0) 0 0 0) }
    ensures bytes { out.new ≡ placed out.old at (line_of «record» number (pos 0) 0 0 0) }
{
    if !kit::ends_inside(out.len(), at, refused_length(record, number)) {
        return 0;
    }
    let p = write_number(out, at, record, b' ');
    let q = write_number(out, p, u64::from(number), b' ');
    let end = write_bytes(out, q, b"0 0 0 0\n");
    end - at
}

// ---- the line with the number of its record kept as digits

// The digits of a number that is counted on, kept from one line to the next: the first `len` of the first eight bytes of a buffer. None are kept
// where `len` is not 1 to 8, or where the buffer has fewer than eight bytes.
// Stays: a buffer and a length, here and below, by what may not change: the clauses of `count_from` and `count_on` speak of a buffer of any length.

// Whether some are kept.
#[tactic(auto, unfolding(crate::specs::Counts::is_kept))]
fn is_kept(size: usize, len: usize) -> bool
    ensures { result ≡ is_kept size len }
{
    (1..=8).contains(&len) && 8 <= size
}

// The digits of n at the front, where it has at most eight and there are eight bytes; how many. Else nothing changes and they are none.
pub fn count_from(digits: &mut [u8], n: u64) -> usize
    ensures answer { result ≡ counted_length digits.old n }
    ensures bytes { digits.new ≡ counted_digits digits.old n }
{
    if 100_000_000 <= n {
        return 0;
    }
    if digits.len() < 8 {
        return 0;
    }
    write_decimal(digits, 0, n)
}

// One more in the number of the first `len` digits, from the last one to the first: a nine becomes 0 and the digit before it has its turn.
// Whether some digit grew: where all are nines, none does.
fn add_one(digits: &mut [u8], len: usize) -> bool
    requires { len ≤ length digits.old }
    ensures answer { result ≡ is_grown len digits.old }
    ensures bytes { digits.new ≡ one_more len digits.old }
{
    // Stays: tried `digits[..len].iter_mut().rev()`; the clauses stayed open where a digit grew, for the same reason.
    for i in (0..len).rev() {
        if digits[i] < b'9' {
            digits[i] += 1;
            return true;
        }
        digits[i] = b'0';
    }
    false
}

// From those of n - 1, the first `len`, to those of n: one more, and where all were nines, all are made anew. Where none are kept, none are.
pub fn count_on(digits: &mut [u8], len: usize, n: u64) -> usize
    ensures answer { result ≡ length_on digits.old len n }
    ensures bytes { digits.new ≡ digits_on digits.old len n }
{
    if !is_kept(digits.len(), len) {
        return 0;
    }
    if add_one(digits, len) {
        return len;
    }
    count_from(digits, n)
}

// The bytes of the first field of a line, those that are kept, else made of `record`, written at a place; the place behind them. All eight
// bytes are written, the rest of the line goes over those behind the number.
fn write_first(out: &mut [u8], at: usize, digits: &[u8], len: usize, record: u64) -> usize
    requires { at + 20 ≤ length out.old }
    ensures place { result ≡ at + length (counted digits.now len «record») }
    ensures bytes { out.new ≡ put out.old at (first_written digits.now len «record») }
{
    if !is_kept(digits.len(), len) {
        return write_decimal(out, at, record);
    }
    prove!(8 <= digits.len());
    write_bytes(out, at, &digits[..8]);
    at + len
}

// What a line says behind the number of its record: the number given back, the two results, how many requests were accepted and rejected.
// Stays: `number` is a u8 by what may not change: a caller may hand in any number, and the line has it.
#[derive(Clone, Copy, Debug, PartialEq, Eq)]
pub struct Told {
    pub number: u8,
    pub first: i64,
    pub second: u64,
    pub accepted: u32,
    pub rejected: u32,
}

impl Told {
    // What stands behind the first field of a line, written at a place behind which 69 bytes fit; the place behind it.
    fn write(&self, out: &mut [u8], at: usize) -> usize
        requires { at + 69 ≤ length out.old }
        ensures { Wrote out.old at (tail_of self.now.number self.now.first self.now.second self.now.accepted self.now.rejected) result out.new }
    {
        out[at] = b' ';
        let p = write_number(out, at + 1, u64::from(self.number), b' ');
        let q = write_signed(out, p, self.first, b' ');
        write_back(out, q, self.second, self.accepted, self.rejected)
    }
}

// The line of a record whose first field is the digits that are kept, else `record`, written at a place behind which 89 bytes fit; its length.
// Where they do not, nothing changes and the length is 0.
pub fn write_counted(
    out: &mut [u8],
    at: usize,
    digits: &[u8],
    len: usize,
    record: u64,
    told: &Told,
) -> usize
    ensures answer { result ≡ ample_fitted out.old at (told_line (counted digits.now len «record») told.now) }
    ensures bytes { out.new ≡ ample_placed out.old at (told_line (counted digits.now len «record») told.now) }
{
    if !kit::ends_inside(out.len(), at, 89) {
        return 0;
    }
    let p = write_first(out, at, digits, len, record);
    told.write(out, p) - at
}
