// The 64-bit number that a function of the two C libraries answers.
#![tactic(auto)]

ghost use Rattle.std.specs.Prelude.{◌≡◌};
ghost use Rattle.dahomike_answer.specs.Number.{told_number};

use tasks::Refusal;

// "4,294,967,296 × refusal number + index for a refused call", and the call's own number for another
#[tactic(auto, unfolding(crate::specs::Number::answer_number))]
pub fn answer(told: Result<u64, Refusal>) -> u64
    ensures { result ≡ told_number told }
{
    match told {
        Ok(number) => number,
        Err(refusal) => 4294967296 * (refusal.number as u64) + (refusal.index as u64),
    }
}
