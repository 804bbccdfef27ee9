// FNV-1a, 32 bits.
#![tactic(auto)]

ghost use Rattle.std.specs.Prelude.{◌≡◌};
ghost use Rattle.fnv.specs.Fnv.{cut_product, fnv_step, fnv_of};

// The product, cut to 32 bits.
// Stays: document 01 names this form, a helper of the program's own and not the library's wrapping_mul.
#[tactic(auto, unfolding(crate::specs::Fnv::cut_product), using(crate::proofs::Laws::product))]
pub fn wrapping_mul(a: u32, b: u32) -> u32
    ensures { result ≡ cut_product a b }
{
    (u64::from(a) * u64::from(b) % 0x1_0000_0000) as u32
}

// The check h with one byte more.
#[tactic(auto, unfolding(crate::specs::Fnv::fnv_step))]
pub fn with_byte(h: u32, b: u8) -> u32
    ensures { result ≡ fnv_step h b }
{
    wrapping_mul(h ^ u32::from(b), 16777619)
}

// The check of all bytes of a slice.
#[tactic(auto, unfolding(crate::specs::Fnv::fnv_of), using(crate::proofs::Laws::turn, crate::proofs::Laws::end))]
pub fn check(s: &[u8]) -> u32
    ensures { result ≡ fnv_of s.now }
{
    let mut h: u32 = 2166136261;
    for b in s {
        h = with_byte(h, *b);
    }
    h
}
