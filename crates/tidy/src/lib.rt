// Zeros in unused places: a task and a plan of zeros, and plans cut at their used places.
#![tactic(auto)]

ghost use Rattle.std.specs.Prelude.{◌≡◌, ◌≤◌, length};
ghost use Rattle.laws.specs.Tab.{tab, cut};
ghost use Rattle.tasks.specs.TaskSet.{row};
ghost use Rattle.tasks.specs.Content.{in_edition, no_task, zero_task, zero_plan, task_of, tidy};

use tasks::edition::deadline_in;
use tasks::{Plan, Task};

// A task of zeros: an unused place.
pub fn no_task() -> Task
    ensures { result ≡ no_task }
{
    Task {
        separation: 0,
        budget: 0,
        offset: 0,
        deadline: 0,
    }
}

// Whether a task is that one.
pub fn is_no_task(task: Task) -> bool
    ensures { result ≡ zero_task task }
{
    task == no_task()
}

// A plan of zeros, which a refused judgement hands back.
pub fn no_plan() -> Plan
    ensures { result ≡ zero_plan }
{
    Plan {
        edition: 0,
        offered: false,
        cores: 0,
        tasks: 0,
        labels: [0; 8],
        task: [no_task(); 16],
        slack: [0; 16],
    }
}

// The first bytes, of labels or of names.
pub fn tidy_bytes(bytes: &[u8], count: usize) -> [u8; 8]
    requires { (count ≤ 8) × (count ≤ length bytes.now) }
    ensures { result ≡ tab (cut count (row bytes.now) 0) 8 }
{
    let mut out = [0u8; 8];
    out[..count].copy_from_slice(&bytes[..count]);
    out
}

pub fn tidy_slack(slack: &[u32; 16], tasks: usize) -> [u32; 16]
    requires { tasks ≤ 16 }
    ensures { result ≡ tab (cut tasks (row slack.now) 0) 16 }
{
    let mut out = [0u32; 16];
    out[..tasks].copy_from_slice(&slack[..tasks]);
    out
}

// "The loop record gains the deadline, an unused place in edition 1"
fn in_edition(edition: u8, task: Task) -> Task
    ensures { result ≡ in_edition edition task }
{
    Task {
        deadline: deadline_in(edition, task.deadline),
        ..task
    }
}

fn tidy_tasks(edition: u8, task: [Task; 16], tasks: usize) -> [Task; 16]
    requires { tasks ≤ 16 }
    ensures { result ≡ tab (cut tasks (λ i. in_edition edition (task_of task i)) no_task) 16 }
{
    let mut out = [no_task(); 16];
    for i in 0..tasks {
        out[i] = in_edition(edition, task[i]);
    }
    out
}

// "Core and loop places that a plan doesn't use are handed back as zeros, in a newly opened state too"
pub fn tidied(plan: Plan) -> Plan
    requires { (plan.cores ≤ 8) × (1 ≤ plan.tasks) × (plan.tasks ≤ 16) }
    ensures { result ≡ tidy plan }
{
    Plan {
        labels: tidy_bytes(&plan.labels, plan.cores),
        task: tidy_tasks(plan.edition, plan.task, plan.tasks),
        slack: tidy_slack(&plan.slack, plan.tasks),
        ..plan
    }
}
