// Test 13: every bound against 16 × T.
ghost use Rattle.std.specs.Prelude.{◌≡◌, ◌≤◌};
ghost use Rattle.laws.specs.First.{first};
ghost use Rattle.tasks.specs.TaskSet.{row, bound_by};
ghost use Rattle.tasks.specs.Content.{task_of, content_of};
ghost use Rattle.tasks.specs.Tests.{over_bound, bounds_test};

use tasks::bound::{bound, core_for_each};
use tasks::{Plan, Refusal, Rule, Task};

// "A bound is above 16 × T."
fn is_over(each: bool, task: Task, slack: u32) -> bool
    ensures { result ≡ over_bound task (bound_by each task slack) }
{
    16 * u64::from(task.separation) < bound(each, task, slack)
}

// The lowest task whose bound is above 16 × T, or `tasks` where there is none, as the definition `first` has it.
fn first_over(each: bool, task: [Task; 16], slack: [u32; 16], tasks: usize) -> usize
    requires { tasks ≤ 16 }
    ensures { result ≡ first (λ i. over_bound (task_of task i) (bound_by each (task_of task i) (row slack i))) tasks }
{
    for i in 0..tasks {
        if is_over(each, task[i], slack[i]) {
            return i;
        }
    }
    tasks
}

// 13 of a plan's tasks with this slack.
pub fn bounds(plan: Plan, slack: [u32; 16]) -> Result<(), Refusal>
    requires { plan.tasks ≤ 16 }
    ensures { result ≡ bounds_test (content_of plan).tasks (row slack) }
{
    let tasks = plan.tasks;
    let task = plan.task;
    let over = first_over(core_for_each(plan.cores, tasks), task, slack, tasks);
    if over < tasks {
        return Err(Rule::BoundTooLarge.at(over as u16));
    }
    Ok(())
}
