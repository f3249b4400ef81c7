// A wish sheet's case: what `wish` answers to it, and what the judge says of the plan that it found.
#![tactic(auto)]

use tasks::{Plan, Refusal, Task};
use test_same_plan::{all_zero, same_plan, unused_zero};
use test_script::buffer::FILL;
use test_script::line::front;
use test_script::say;

fn say_task(i: usize, edition: u8, task: Task, slack: u32) {
    let bound = task.offset as u64 + slack as u64 + task.budget as u64;
    say::number(b"loop ", i as u64);
    say::number(b" offset ", task.offset as u64);
    say::number(b" slack ", slack as u64);
    say::number(b" bound ", bound);
    say::deadline(edition, task.deadline, bound);
    say::text(b"\n");
}

fn say_tasks(plan: Plan) {
    let edition = plan.edition;
    for i in 0..plan.tasks.min(16) {
        say_task(i, edition, plan.task[i], plan.slack[i]);
    }
}

// "The plan found, with its slack left out, is accepted by the judge with the same slack."
fn say_written(plan: Plan) {
    let mut buffer = [FILL; 400];
    let written = writer::write(plan, &mut buffer);
    let Ok(length) = written else {
        say::text(b"not written\n");
        return;
    };
    let bytes = front(&buffer, length);
    say::bytes(b"written", bytes);
    let again = table::judge(bytes);
    say::fact(
        b"judged they are the same plan",
        same_plan(again.plan, plan),
    );
}

fn say_plan(plan: Plan) {
    say::accepted(
        b"wish accepted",
        plan.edition,
        plan.cores,
        plan.tasks,
        plan.offered,
    );
    say_tasks(plan);
    say::fact(b"unused places are zero", unused_zero(plan));
    say_written(plan);
}

// A sheet of any bytes.
pub fn wished(name: &[u8], bytes: &[u8]) {
    say::case(b"wish ", name);
    let found = sheet::wish(bytes);
    let plan = found.plan;
    let answer = found.answer;
    match answer {
        Ok(()) => say_plan(plan),
        Err(Refusal { number, index }) => {
            say::refusal(b"wish", number, index);
            say::fact(b"the plan is of zeros", all_zero(plan));
        }
    }
}
