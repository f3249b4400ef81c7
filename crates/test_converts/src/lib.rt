// A conversion's case: what `convert` answers to a table and leaves in the lent buffer, and what the judge says of both sides.
#![tactic(auto)]

ghost use Rattle.std.specs.Prelude.{◌<◌};

use tasks::{Plan, Refusal, Task};
use test_same_plan::same_plan;
use test_script::buffer::{FILL, lent, untouched};
use test_script::line::front;
use test_script::say;

// What is converted has more loops than cores: in edition 1 its late is "x + C, counted from the priority point".
fn say_side(edition: u8, task: Task, slack: u32) {
    let late = slack as u64 + task.budget as u64;
    let bound = task.offset as u64 + late;
    say::number(b" slack ", slack as u64);
    say::number(b" bound ", bound);
    if edition == 1 {
        say::number(b" late ", late);
    }
    say::deadline(edition, task.deadline, bound);
}

// The loop as the table has it, and behind a comma as the bytes written have it.
fn say_task(i: usize, from: Plan, to: Plan)
    requires { i < 16 }
{
    say::number(b"loop ", i as u64);
    say_side(from.edition, from.task[i], from.slack[i]);
    say::text(b",");
    say_side(to.edition, to.task[i], to.slack[i]);
    say::text(b"\n");
}

fn say_tasks(from: Plan, to: Plan) {
    for i in 0..from.tasks.min(16) {
        say_task(i, from, to);
    }
}

// In edition 1 deadlines are unused places, so two such plans are the same where labels, T, C, Y, slack and mark agree.
fn without_deadlines(mut plan: Plan) -> Plan {
    plan.edition = 1;
    plan
}

// "there and back gives the first bytes".
fn say_back(edition: u8, bytes: &[u8], table: &[u8]) {
    let mut buffer = [FILL; 400];
    let answer = converter::convert(bytes, u32::from(edition), &mut buffer);
    let Ok(length) = answer else {
        say::text(b"not converted back\n");
        return;
    };
    say::fact(
        b"converted back they are the table's bytes",
        *front(&buffer, length) == *table,
    );
}

// "Both sides have the same slack, bounds and late".
fn say_sides(bytes: &[u8], table: &[u8]) {
    let judged = table::judge(table);
    let again = table::judge(bytes);
    let from = judged.plan;
    let to = again.plan;
    say::fact(b"the judge accepts them", again.answer.is_ok());
    say::fact(
        b"labels, T, C, Y, slack and its mark are the table's",
        same_plan(without_deadlines(to), without_deadlines(from)),
    );
    say_tasks(from, to);
    say_back(from.edition, bytes, table);
}

fn say_length(buffer: &[u8], length: usize, table: &[u8]) {
    say::number(b"convert ", length as u64);
    say::text(b" bytes\n");
    let written = front(buffer, length);
    say::bytes(b"written", written);
    say::fact(b"later bytes stay", untouched(buffer, length));
    say_sides(written, table);
}

// A table of any bytes and any wanted edition.
pub fn converted(name: &[u8], table: &[u8], edition: u32, room: usize) {
    say::case(b"convert ", name);
    let mut buffer = [FILL; 400];
    let answer = converter::convert(table, edition, lent(&mut buffer, room));
    match answer {
        Ok(length) => say_length(&buffer, length, table),
        Err(Refusal { number, index }) => {
            say::refusal(b"convert", number, index);
            say::fact(b"the buffer is unchanged", untouched(&buffer, 0));
        }
    }
}
