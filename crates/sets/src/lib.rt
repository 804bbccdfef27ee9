// Sets of items in a u32: bit i is set if item i is in the set. A set of items has no bit above 23.
#![tactic(auto)]

ghost use Rattle.std.specs.Prelude.{◌≡◌};
ghost use Rattle.sets.specs.Sets.{member, with_item, union, meets, inside, size, of_items};

// Whether item i is in the set.
#[tactic(auto, unfolding(crate::specs::Sets::member))]
pub fn has(s: u32, i: usize) -> bool
    ensures { result ≡ member s i }
{
    i < 32 && (s >> i) % 2 == 1
}

// The set with item i in it; an item above 31 has no place, and the set stays as it is.
#[tactic(auto, unfolding(crate::specs::Sets::with_item), using(crate::proofs::Laws::with_none))]
pub fn with(s: u32, i: usize) -> u32
    ensures { result ≡ with_item s i }
{
    if i < 32 { s | (1 << i) } else { s }
}

// What is in a or in b.
#[tactic(auto, unfolding(crate::specs::Sets::union), using(crate::proofs::Laws::join_law))]
pub fn join(a: u32, b: u32) -> u32
    ensures { result ≡ union a b }
{
    a | b
}

// Whether some item is in both.
#[tactic(auto, unfolding(crate::specs::Sets::meets), using(crate::proofs::Laws::meets_law))]
pub fn meet(a: u32, b: u32) -> bool
    ensures { result ≡ meets a b }
{
    a & b != 0
}

// Whether each item of a is in b.
#[tactic(auto, unfolding(crate::specs::Sets::inside), using(crate::proofs::Laws::inside_law))]
pub fn is_inside(a: u32, b: u32) -> bool
    ensures { result ≡ inside a b }
{
    a & b == a
}

// How many items are in the set.
#[tactic(auto, unfolding(crate::specs::Sets::size), using(crate::proofs::Laws::ones_members))]
pub fn count(s: u32) -> u32
    ensures { result ≡ size s }
{
    s.count_ones()
}

// Whether no item above 23 is in the set.
pub fn of_items(s: u32) -> bool
    ensures { result ≡ of_items s }
{
    s < 0x100_0000
}
