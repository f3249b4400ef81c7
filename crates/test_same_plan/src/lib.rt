// Plans compared, and their unused places.
#![tactic(auto)]

use tasks::{Plan, Task};
use tidy::is_no_task;

// A function and no `==`: labels of unused places don't count.
fn same_labels(a: Plan, b: Plan) -> bool {
    let cores = a.cores.min(8);
    a.labels[..cores] == b.labels[..cores]
}

// A deadline is an entry in edition 2 alone.
fn same_deadline(edition: u8, a: Task, b: Task) -> bool {
    edition != 2 || a.deadline == b.deadline
}

fn same_task(edition: u8, a: Task, b: Task) -> bool {
    a.separation == b.separation
        && a.budget == b.budget
        && a.offset == b.offset
        && same_deadline(edition, a, b)
}

fn same_tasks(a: Plan, b: Plan) -> bool {
    let tasks = a.tasks.min(16);
    let mut used = a.task[..tasks].iter().zip(&b.task[..tasks]);
    used.all(|(x, y)| same_task(a.edition, *x, *y)) && a.slack[..tasks] == b.slack[..tasks]
}

// "two plans are the same if their used entries and that mark agree", and "only if editions agree too".
pub fn same_plan(a: Plan, b: Plan) -> bool {
    a.edition == b.edition
        && a.offered == b.offered
        && a.cores == b.cores
        && a.tasks == b.tasks
        && same_labels(a, b)
        && same_tasks(a, b)
}

// Whether the labels are 0 from the core `from` on.
fn clear_labels(plan: Plan, from: usize) -> bool {
    plan.labels.iter().skip(from).all(|label| *label == 0)
}

// Whether loops and slack are 0 from the loop `from` on.
fn clear_tasks(plan: Plan, from: usize) -> bool {
    plan.task.iter().skip(from).all(|task| is_no_task(*task))
        && plan.slack.iter().skip(from).all(|slack| *slack == 0)
}

// Whether every deadline is 0.
fn clear_deadlines(plan: Plan) -> bool {
    plan.task.iter().all(|task| task.deadline == 0)
}

// "Core and loop places that a plan doesn't use are handed back as zeros"; the deadline is "an unused place in edition 1".
pub fn unused_zero(plan: Plan) -> bool {
    clear_labels(plan, plan.cores)
        && clear_tasks(plan, plan.tasks)
        && (plan.edition == 2 || clear_deadlines(plan))
}

// "A refused judgement … hands back a plan … of zeros".
pub fn all_zero(plan: Plan) -> bool {
    plan.edition == 0 && !plan.offered && plan.cores == 0 && plan.tasks == 0 && unused_zero(plan)
}
