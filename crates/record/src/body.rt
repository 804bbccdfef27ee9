// A reader for each kind of body: what stands behind the three header bytes, handed on as it is. A field that a body is too short for reads as 0.
ghost use Rattle.std.specs.Prelude.{◌≡◌, ◌≤◌, ◌<◌, ◌^◌, pos, ℕ, replicate};
ghost use Rattle.kit.specs.Bytes.{field_at};
ghost use Rattle.record.specs.Bodies.{by_item, stamp_at, value_at, begin_length, begin_step, tell_step, place_step, site_step, retire_step, read_step};
ghost use Rattle.record.specs.Records.{outline};

use crate::Brief;

// A number of 1 byte.
#[tactic(auto, using(kit::proofs::Fields::field_lt))]
fn byte_at(b: &[u8], at: usize) -> u8
    ensures { result ≡ field_at b.now at 1 }
{
    kit::read_field(b, at, 1) as u8
}

// A number of n bytes, at most 4.
#[tactic(auto, using(kit::proofs::Fields::field_lt))]
fn word_at(b: &[u8], at: usize, n: usize) -> u32
    requires { n ≤ 4 }
    ensures value { result ≡ field_at b.now at n }
    ensures small { result < 256 ^ n }
{
    kit::read_field(b, at, n) as u32
}

// A value, in two's complement.
fn value_in(b: &[u8], at: usize) -> i32
    ensures { result ≡ value_at b.now at }
{
    word_at(b, at, 4).cast_signed()
}

// How many bytes a begin's stamps and values have, and the eleven before them, counted from its two sets as they stand.
#[tactic(auto, unfolding(crate::specs::Bodies::begin_length))]
pub fn begin_length(b: &[u8]) -> usize
    ensures { result ≡ begin_length b.now }
{
    let base = word_at(b, 5, 3);
    let update = word_at(b, 8, 3);
    11 + 5 * (sets::count(base) as usize) + 4 * (sets::count(update) as usize)
}

// Reads the numbers of the items in a set, each of so many bytes, from a place on, items rising, into an array that is lent; the other items
// stay as they are. What is left of the set gives up its lowest item at each turn.
// Stays: a `while` over the bits is no plainer as a `for`: a `for` over the 24 items would ask each one, and a set of bits has no iterator.
fn fill<T: Copy, F: Fn(usize) -> T>(r: &mut [T; 24], start: usize, width: usize, set: u32, read: F)
    requires safe { F.IsAlwaysCallable read }
    requires small { (start < 2 ^ 16) × (width < 2 ^ 16) × (set < 2 ^ 24) }
    ensures { (none : T) (number : ℕ → T) → r.old ≡ replicate 24 none → ((at : ℕ) (x : T) → F.post read at x → x ≡ number at) → r.new ≡ by_item none number start width set }
{
    let mut at = start;
    let mut left = set;
    while left != 0 {
        r[left.trailing_zeros() as usize] = read(at);
        at += width;
        left &= left - 1;
    }
}

// A begin's stamps, which stand behind its sets, and its values, which stand behind its stamps, into two arrays of zeros that are lent.
pub(crate) fn begin_numbers(b: &[u8], stamps: &mut [u64; 24], values: &mut [i32; 24])
    requires blank { (stamps.old ≡ replicate 24 0) × (values.old ≡ replicate 24 (pos 0)) }
    ensures stamps { stamps.new ≡ (begin_step b.now).stamps }
    ensures values { values.new ≡ (begin_step b.now).values }
{
    let base = word_at(b, 5, 3);
    let update = word_at(b, 8, 3);
    let values_from = 11 + 5 * (sets::count(base) as usize);
    fill(stamps, 11, 5, base, |at| kit::read_field(b, at, 5));
    fill(values, values_from, 4, update, |at| value_in(b, at));
}

// Begin: site, clock, base set, update set; then stamps by rising item and values by rising item, which are left where they are.
#[tactic(auto, unfolding(crate::specs::Bodies::begin_step))]
pub fn read_begin(b: &[u8]) -> Brief
    ensures { result ≡ outline (begin_step b.now) }
{
    Brief {
        code: 1,
        site: byte_at(b, 0),
        clock: word_at(b, 1, 4),
        base: word_at(b, 5, 3),
        update: word_at(b, 8, 3),
        ..Brief::default()
    }
}

// Tell: from, stamp, to.
#[tactic(auto, unfolding(crate::specs::Bodies::tell_step))]
pub fn read_tell(b: &[u8]) -> Brief
    ensures { result ≡ outline (tell_step b.now) }
{
    Brief {
        code: 2,
        site: byte_at(b, 0),
        stamp: kit::read_field(b, 1, 5),
        to: byte_at(b, 6),
        ..Brief::default()
    }
}

// Deliver and drop: message place.
// Stays: in one function with `read_one_site` it is no plainer: the byte is another field of each, and each has its own definition.
#[tactic(auto, unfolding(crate::specs::Bodies::place_step))]
pub fn read_one_place(code: u8, b: &[u8]) -> Brief
    ensures { result ≡ outline (place_step code b.now) }
{
    Brief {
        code,
        place: byte_at(b, 0),
        ..Brief::default()
    }
}

// Down and up: site.
#[tactic(auto, unfolding(crate::specs::Bodies::site_step))]
pub fn read_one_site(code: u8, b: &[u8]) -> Brief
    ensures { result ≡ outline (site_step code b.now) }
{
    Brief {
        code,
        site: byte_at(b, 0),
        ..Brief::default()
    }
}

// Retire: stamp.
#[tactic(auto, unfolding(crate::specs::Bodies::retire_step))]
pub fn read_retire(b: &[u8]) -> Brief
    ensures { result ≡ outline (retire_step b.now) }
{
    Brief {
        code: 7,
        stamp: kit::read_field(b, 0, 5),
        ..Brief::default()
    }
}

// Read: site, item.
#[tactic(auto, unfolding(crate::specs::Bodies::read_step))]
pub fn read_read(b: &[u8]) -> Brief
    ensures { result ≡ outline (read_step b.now) }
{
    Brief {
        code: 8,
        site: byte_at(b, 0),
        item: byte_at(b, 1),
        ..Brief::default()
    }
}
