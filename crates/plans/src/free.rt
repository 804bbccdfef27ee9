// The free message places as a set, so that the lowest is found at once: bit j is set if place j is free.
ghost use Rattle.std.specs.Prelude.{◌≡◌, ◌<◌, IfSome};
ghost use Rattle.plans.specs.Free.{free_among, lowest_in, free_without, free_with};

use table::data::Message;

#[derive(Clone, Copy, Debug, PartialEq, Eq)]
pub struct FreePlaces {
    pub set: u64,
}

impl FreePlaces {
    // Those among these messages.
    pub fn among(messages: &[Message; 64]) -> FreePlaces
        ensures { result ≡ free_among messages.now }
    {
        let mut set: u64 = 0;
        for (j, m) in messages.iter().enumerate() {
            set += u64::from(!m.used) << j;
        }
        FreePlaces { set }
    }

    // The lowest of them.
    #[tactic(auto, using(crate::proofs::FreeSet::lowest_is, crate::proofs::FreeSet::lowest_none))]
    pub fn lowest(&self) -> Option<usize>
        ensures value { result ≡ lowest_in self.now }
        ensures inside { IfSome result (λ j. j < 64) }
    {
        if self.set == 0 {
            return None;
        }
        Some(self.set.trailing_zeros() as usize)
    }

    // Stays: take and give are two functions: they differ in the test and the sign, and one that is told which would be no plainer.
    // All but place j; a place above 63 is none.
    #[tactic(auto, using(crate::proofs::FreeSet::take_out, crate::proofs::FreeSet::place_taken, crate::proofs::FreeSet::place_left, crate::proofs::FreeSet::digit_below))]
    pub fn take(&mut self, j: usize)
        ensures { self.new ≡ free_without self.old j }
    {
        if 63 < j {
            return;
        }
        if (self.set >> j) % 2 == 1 {
            self.set -= 1 << j;
        }
    }

    // And place j; a place above 63 is none.
    #[tactic(auto, using(crate::proofs::FreeSet::give_out, crate::proofs::FreeSet::place_given, crate::proofs::FreeSet::place_kept, crate::proofs::FreeSet::place_fits))]
    pub fn give(&mut self, j: usize)
        ensures { self.new ≡ free_with self.old j }
    {
        if 63 < j {
            return;
        }
        if (self.set >> j) % 2 == 0 {
            self.set += 1 << j;
        }
    }
}
