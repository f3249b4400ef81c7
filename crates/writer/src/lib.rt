// The writer: a plan handed in unchecked, to a table's bytes.
#![tactic(auto)]

ghost use Rattle.std.specs.Prelude.{◌≡◌, length};
ghost use Rattle.tasks.specs.Answer.{Accepted};
ghost use Rattle.tasks.specs.Tests.{test_plan};
ghost use Rattle.writer.specs.Written.{answer_of_written, length_of_written, write_test, written_length, written_to};
ghost use Rattle.writer.specs.WriterLaws.{Writes};

use analysis::{slack_count, test};
use codec::places::table_length;
use sections::put_plan;
use tasks::{Plan, Refusal, Rule};

// The bytes of a plan that meets none of its numbers, or 24. Answers how many bytes there are.
pub fn write_accepted(plan: Plan, out: &mut [u8]) -> Result<usize, Refusal>
    requires { test_plan plan ≡ Accepted }
    ensures { Writes plan out.old result out.new }
{
    let offers = slack_count(plan.offered, plan.tasks);
    if out.len() < table_length(plan.edition, plan.cores, plan.tasks, offers) {
        return Err(Rule::BufferTooShort.at(0));
    }
    Ok(put_plan(out, plan))
}

// "The writer … returns the bytes written, and later bytes of its buffer stay." "log run and writer take it apart by let .. else and pass the
// refusal on."
pub fn write(plan: Plan, out: &mut [u8]) -> Result<usize, Refusal>
    ensures { (answer_of_written result ≡ write_test plan (length out.old))
        × (length_of_written result ≡ written_length plan (length out.old))
        × (out.new ≡ written_to plan out.old) }
{
    let Err(refusal) = test(plan) else {
        return write_accepted(plan, out);
    };
    Err(refusal)
}
