// The bound of a loop, by whether loops are no more than cores.
ghost use Rattle.std.specs.Prelude.{◌≡◌};
ghost use Rattle.tasks.specs.TaskSet.{core_for_each, bound_by};

use crate::Task;

// "Where loops are no more than cores".
pub fn core_for_each(cores: usize, tasks: usize) -> bool
    ensures { result ≡ core_for_each cores tasks }
{
    tasks <= cores
}

// "The bound of a loop is Y + x + C", and with a core for each loop "its bound is its budget". 64 bits hold the sum of any offered slack.
pub fn bound(each: bool, task: Task, slack: u32) -> u64
    ensures { result ≡ bound_by each task slack }
{
    if each {
        return task.budget as u64;
    }
    task.offset as u64 + slack as u64 + task.budget as u64
}
