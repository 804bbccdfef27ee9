// One step on a table.
ghost use Rattle.std.specs.Prelude.{◌≡◌};
ghost use Rattle.plans.specs.Answers.{answer_from};
ghost use Rattle.steps.specs.Steps.{stepped};

use crate::acting::take_step;
use plans::answer::Results;
use plans::free::FreePlaces;
use record::Step;
use refusals::Refusal;
use table::data::Table;
use table::sound::sound;

// A step on any table. A refused one leaves it as it came; one that is not sound is refused.
#[tactic(auto, unfolding(crate::specs::Steps::stepped), using(crate::proofs::Ways::sound_count))]
pub fn step(t: &mut Table, a: Step) -> Result<Results, Refusal>
    ensures answer { answer_from result ≡ (stepped t.old a).answer }
    ensures table { t.new ≡ (stepped t.old a).table }
{
    if !sound(t) {
        return Err(Refusal::NotSound);
    }
    let mut free = FreePlaces::among(&t.messages);
    take_step(t, &mut free, a.brief(), &a.stamps, &a.values)
}
