// A table's case: what `judge` and `slack_part` answer to it, and what comes of writing the plan.
use crate::written;
use tasks::bound::{bound, core_for_each};
use tasks::{Plan, Refusal, Task};
use test_same_plan::{all_zero, unused_zero};
use test_script::say;

fn say_task(i: usize, edition: u8, each: bool, task: Task, slack: u32) {
    let bound = bound(each, task, slack);
    say::number(b"loop ", i as u64);
    say::number(b" slack ", u64::from(slack));
    say::number(b" bound ", bound);
    say::deadline(edition, task.deadline, bound);
    say::text(b"\n");
}

fn say_tasks(plan: Plan) {
    let edition = plan.edition;
    let tasks = plan.tasks;
    let each = core_for_each(plan.cores, tasks);
    for i in 0..tasks.min(16) {
        say_task(i, edition, each, plan.task[i], plan.slack[i]);
    }
}

fn say_plan(plan: Plan) {
    say::accepted(
        b"judge accepted",
        plan.edition,
        plan.cores,
        plan.tasks,
        plan.offered,
    );
    say_tasks(plan);
    say::fact(b"unused places are zero", unused_zero(plan));
}

// A table of any bytes.
pub fn bytes(name: &[u8], table: &[u8]) {
    say::case(b"table ", name);
    let judgement = table::judge(table);
    let plan = judgement.plan;
    let answer = judgement.answer;
    match answer {
        Ok(()) => {
            say_plan(plan);
            written::outcome(plan, 400, table);
        }
        Err(Refusal { number, index }) => {
            say::refusal(b"judge", number, index);
            say::fact(b"the plan is of zeros", all_zero(plan));
        }
    }
    let counted = judgement.counted;
    say::number(b"counted ", judgement.count as u64);
    say::bytes(b" by name", &counted);
    say::bytes(b"slack part", table::slack_part(table));
}
