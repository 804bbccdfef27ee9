// Items and readings.
#![tactic(auto)]

ghost use Rattle.std.specs.Prelude.{◌≡◌};
ghost use Rattle.readings.specs.Readings.{movement_of, position_of, in_range, is_zero};

// The movement of an item.
pub fn movement_of(item: u8) -> u8
    ensures { result ≡ movement_of item }
{
    item / 6
}

// The position of an item.
pub fn position_of(item: u8) -> u8
    ensures { result ≡ position_of item }
{
    item % 6
}

// Whether a value may be a daily rate.
#[tactic(auto, unfolding(crate::specs::Readings::in_range))]
pub fn is_in_range(value: i32) -> bool
    ensures { result ≡ in_range value }
{
    (-8_640_000..=8_640_000).contains(&value)
}

// Whether the rate is 0.
#[tactic(auto, unfolding(crate::specs::Readings::is_zero))]
pub fn is_zero(value: i32) -> bool
    ensures { result ≡ is_zero value }
{
    value == 0
}
