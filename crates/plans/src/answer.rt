// What a step gives back where it is done: a refused one gives its number, document 01's `Refusal`.
ghost use Rattle.std.specs.Prelude.{◌≡◌};
ghost use Rattle.plans.specs.Answers.{quiet_results};

// The two results, and how many requests the step accepted and rejected at its site. The first result of a read may be negative.
#[derive(Clone, Copy, Debug, PartialEq, Eq)]
pub struct Results {
    pub first: i64,
    pub second: u64,
    pub accepted: u32,
    pub rejected: u32,
}

impl Results {
    // Those of a step at which nothing is ruled.
    pub fn quiet(first: i64, second: u64) -> Results
        ensures { result ≡ quiet_results first second }
    {
        Results {
            first,
            second,
            accepted: 0,
            rejected: 0,
        }
    }
}
