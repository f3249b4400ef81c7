// Tests 6, 7, 8 and 28, and on a wish sheet 6, 7, 26 and 28: each task's own fields, each test over all tasks before the next.
ghost use Rattle.std.specs.Prelude.{◌≡◌, ◌≤◌};
ghost use Rattle.tasks.specs.Content.{task_of};
ghost use Rattle.tasks.specs.Tests.{outside, bad_separation, bad_budget, bad_offset, bad_wish, bad_deadline};
ghost use Rattle.fields.specs.Stages.{deadline_by, last_by, met_by, fields_test, wishes_test};
ghost use Rattle.fields.specs.ScanLaws.{scan, range_tests};

use tasks::edition::has_deadlines;
use tasks::{Refusal, Rule, Task, limits};

fn is_outside(low: u32, high: u32, x: u32) -> bool
    ensures { result ≡ outside low high x }
{
    x < low || high < x
}

// "A separation is not 1 to 100,000."
fn bad_separation(task: Task) -> bool
    ensures { result ≡ bad_separation task }
{
    is_outside(1, limits::SEPARATION_HIGH, task.separation)
}

// "A budget is not 1 to its separation."
fn bad_budget(task: Task) -> bool
    ensures { result ≡ bad_budget task }
{
    is_outside(1, task.separation, task.budget)
}

// "An offset is above its separation."
fn bad_offset(task: Task) -> bool
    ensures { result ≡ bad_offset task }
{
    task.separation < task.offset
}

// "W is not C to 16 × T": the separation is at most 100,000.
fn bad_wish(task: Task) -> bool
    requires { task.separation ≤ 100000 }
    ensures { result ≡ bad_wish task }
{
    is_outside(task.budget, 16 * task.separation, task.offset)
}

// "an edition 2 loop's D is not 1 to 1,600,000"
fn bad_deadline(task: Task, edition: u8) -> bool
    ensures { result ≡ bad_deadline edition task }
{
    has_deadlines(edition) && is_outside(1, limits::DEADLINE_HIGH, task.deadline)
}

// No number is this large: the number of a task that meets none. No Option, since the definitions `met_by` and `seen`, which may not change, have
// this number for none.
const NOTHING: u8 = 255;

fn deadline_met(task: Task, edition: u8) -> u8
    ensures { result ≡ deadline_by edition task }
{
    if bad_deadline(task, edition) {
        return Rule::DeadlineOutside.number();
    }
    NOTHING
}

// 26 on a wish sheet, else 8; and then 28.
fn last_met(task: Task, edition: u8, wishes: bool) -> u8
    requires { task.separation ≤ 100000 }
    ensures { result ≡ last_by edition wishes task }
{
    if wishes {
        if bad_wish(task) {
            return Rule::WishOutside.number();
        }
        return deadline_met(task, edition);
    }
    if bad_offset(task) {
        return Rule::OffsetTooLarge.number();
    }
    deadline_met(task, edition)
}

// The first of the four that a task meets.
fn met(task: Task, edition: u8, wishes: bool) -> u8
    ensures { result ≡ met_by edition wishes task }
{
    if bad_separation(task) {
        return Rule::SeparationOutside.number();
    }
    if bad_budget(task) {
        return Rule::BudgetOutside.number();
    }
    last_met(task, edition, wishes)
}

// One scan, which keeps the least number met and the first task that meets it.
fn ranges(task: [Task; 16], tasks: usize, edition: u8, wishes: bool) -> Result<(), Refusal>
    requires { tasks ≤ 16 }
    ensures { result ≡ scan (range_tests edition wishes (task_of task)) tasks }
{
    let mut number = NOTHING;
    let mut index = 0u16;
    for i in 0..tasks {
        let next = met(task[i], edition, wishes);
        if next < number {
            number = next;
            index = i as u16;
        }
    }
    if number == NOTHING {
        return Ok(());
    }
    Err(Refusal { number, index })
}

// Tests 6, 7, 8 and 28.
pub fn task_ranges(task: [Task; 16], tasks: usize, edition: u8) -> Result<(), Refusal>
    requires { tasks ≤ 16 }
    ensures { result ≡ fields_test edition (task_of task) tasks }
{
    ranges(task, tasks, edition, false)
}

// Tests 6, 7, 26 and 28 of a wish sheet's tasks.
pub fn wish_ranges(task: [Task; 16], tasks: usize, edition: u8) -> Result<(), Refusal>
    requires { tasks ≤ 16 }
    ensures { result ≡ wishes_test edition (task_of task) tasks }
{
    ranges(task, tasks, edition, true)
}
