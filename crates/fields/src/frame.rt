// Tests 3, 4 and 5: the cores, their labels, and the number of tasks.
ghost use Rattle.std.specs.Prelude.{◌≡◌, ◌<◌, ◌≤◌};
ghost use Rattle.laws.specs.First.{first};
ghost use Rattle.tasks.specs.TaskSet.{row};
ghost use Rattle.tasks.specs.Tests.{bad_label};
ghost use Rattle.fields.specs.Stages.{least_by, frame_test};

use tasks::{Refusal, Rule, limits};

// "A core label is above 63 or not above the one before."
fn is_bad_label(labels: &[u8; 8], i: usize) -> bool
    requires { i < 8 }
    ensures { result ≡ bad_label (row labels.now) i }
{
    limits::LABEL_HIGH < labels[i] || (0 < i && labels[i] <= labels[i - 1])
}

// The lowest core with such a label, or `cores` where there is none, as the definition `first` has it.
fn bad_label(labels: &[u8; 8], cores: usize) -> usize
    requires { cores ≤ 8 }
    ensures { result ≡ first (bad_label (row labels.now)) cores }
{
    for i in 0..cores {
        if is_bad_label(labels, i) {
            return i;
        }
    }
    cores
}

// "0 loops", on a wish sheet "fewer than cores + 1", are too few.
fn least(cores: usize, wishes: bool) -> usize
    requires { cores ≤ 8 }
    ensures { result ≡ least_by wishes cores }
{
    if wishes { cores + 1 } else { 1 }
}

pub fn frame(cores: usize, labels: &[u8; 8], tasks: usize, wishes: bool) -> Result<(), Refusal>
    ensures { result ≡ frame_test wishes cores (row labels.now) tasks }
{
    if cores < limits::CORES_LOW {
        return Err(Rule::CoresOutside.at(0));
    }
    if limits::CORES_HIGH < cores {
        return Err(Rule::CoresOutside.at(0));
    }
    let bad = bad_label(labels, cores);
    if bad < cores {
        return Err(Rule::LabelWrong.at(bad as u16));
    }
    if tasks < least(cores, wishes) {
        return Err(Rule::TaskCountOutside.at(0));
    }
    if limits::TASKS_HIGH < tasks {
        return Err(Rule::TaskCountOutside.at(0));
    }
    Ok(())
}
