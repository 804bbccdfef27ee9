// Records answered one after the other: what the bench program does with a buffer of them.
ghost use Rattle.std.specs.Prelude.{◌≡◌, ◌≤◌, length, IfOk};
ghost use Rattle.steps.specs.Night.{ran, ran_from, ran_into};

use crate::answering::answer_all;
use refusals::Refusal;
use table::data::Table;
use table::sound::sound;

// What a run over a buffer gives back: how many bytes of the input it took and how many of the output it wrote; the number of the next record.
#[derive(Clone, Copy, Debug, PartialEq, Eq)]
pub struct Ran {
    pub taken: usize,
    pub written: usize,
    pub next: u64,
}

// Takes the records of a buffer, from record number `nth` on, and writes their lines at the front of the output. It stops where a record
// is not whole in this buffer, where the output has no room for another line, or at the end. A table that is not sound is refused.
#[tactic(auto, unfolding(crate::specs::Night::ran, crate::specs::Night::ran_into), using(crate::proofs::Ways::sound_count))]
pub fn run(t: &mut Table, nth: u64, input: &[u8], output: &mut [u8]) -> Result<Ran, Refusal>
    ensures answer { ran_from result t.new ≡ ran t.old nth input.now (length output.old) }
    ensures table { t.new ≡ (ran t.old nth input.now (length output.old)).table }
    ensures bytes { output.new ≡ ran_into t.old nth input.now output.old }
    ensures inside { IfOk result (λ r. (r.taken ≤ length input.now) × (r.written ≤ length output.old)) }
{
    if !sound(t) {
        return Err(Refusal::NotSound);
    }
    Ok(answer_all(t, nth, input, output))
}
