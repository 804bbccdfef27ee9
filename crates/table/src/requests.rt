// Document 01's checks 5, 6 and 7 of a request.
ghost use Rattle.std.specs.Prelude.{◌≡◌, ℕ, Bool, ◌<◌, get_or};
ghost use Rattle.kit.specs.Range.{all, implies};
ghost use Rattle.sets.specs.Sets.{member};
ghost use Rattle.table.specs.Sound.{sets_allowed, base_stamps_allowed, values_allowed, request_allowed};

use vote::data::Request;

// Check 5: the update set is not empty and lies inside the base set, which has no item above 23.
#[tactic(auto, unfolding(crate::specs::Sound::sets_allowed))]
pub fn are_sets_allowed(base: u32, update: u32) -> bool
    ensures { result ≡ sets_allowed base update }
{
    update != 0 && sets::is_inside(update, base) && sets::of_items(base)
}

// Whether each item of a set passes, by what stands at it in a row. What is left of the set gives up its lowest item at each turn.
fn each_allowed<T: Copy, F: Fn(T) -> bool>(set: u32, row: &[T; 24], allowed: F) -> bool
    requires { F.IsAlwaysCallable allowed }
    ensures { (none : T) (test : ℕ → Bool) → ((i : ℕ) (r : Bool) → i < 24 → F.post allowed (get_or row.now i none) r → r ≡ test i) → result ≡ all 24 (λ i. implies (member set i) (test i)) }
{
    let mut left = set;
    while left != 0 {
        let item = left.trailing_zeros() as usize;
        if 23 < item {
            return true;
        }
        if !allowed(row[item]) {
            return false;
        }
        left &= left - 1;
    }
    true
}

// Check 6: each base item's stamp is well formed.
#[tactic(auto, unfolding(crate::specs::Sound::base_stamps_allowed))]
pub fn are_base_stamps_allowed(n: u8, base: u32, based: &[u64; 24]) -> bool
    ensures { result ≡ base_stamps_allowed n base based.now }
{
    each_allowed(base, based, |stamp| stamps::is_well_formed(n, stamp))
}

// Check 7: each update item's value is in range.
#[tactic(auto, unfolding(crate::specs::Sound::values_allowed))]
pub fn are_values_allowed(update: u32, values: &[i32; 24]) -> bool
    ensures { result ≡ values_allowed update values.now }
{
    each_allowed(update, values, |value| readings::is_in_range(value))
}

// Whether a request passes checks 5, 6 and 7.
#[tactic(auto, unfolding(crate::specs::Sound::request_allowed))]
pub fn is_request_allowed(n: u8, q: &Request) -> bool
    ensures { result ≡ request_allowed n q.now }
{
    are_sets_allowed(q.base, q.update)
        && are_base_stamps_allowed(n, q.base, &q.stamps)
        && are_values_allowed(q.update, &q.values)
}
