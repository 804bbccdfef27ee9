// How many voters decide.
#![tactic(auto)]

ghost use Rattle.std.specs.Prelude.{◌≡◌};
ghost use Rattle.majority.specs.Majority.{majority, blocking};

// How many OK voters accept, of n sites.
#[tactic(auto, unfolding(crate::specs::Majority::majority))]
pub fn to_accept(n: u8) -> u8
    ensures { result ≡ majority n }
{
    n / 2 + 1
}

// How many DR and REJ voters reject, of n sites: so many that no majority is left.
#[tactic(auto, unfolding(crate::specs::Majority::majority, crate::specs::Majority::blocking))]
pub fn to_reject(n: u8) -> u8
    ensures { result ≡ blocking n }
{
    n.saturating_sub(to_accept(n)) + 1
}
