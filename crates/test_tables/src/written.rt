// A plan's case: what `write` answers to it and what it leaves in the buffer.
use tasks::{Plan, Refusal};
use test_same_plan::same_plan;
use test_script::buffer::{FILL, lent, untouched};
use test_script::line::front;
use test_script::say;

fn say_length(plan: Plan, buffer: &[u8], length: usize, table: &[u8]) {
    say::number(b"write ", length as u64);
    say::text(b" bytes\n");
    let written = front(buffer, length);
    say::fact(b"they are the table's bytes", written == table);
    say::fact(b"later bytes stay", untouched(buffer, length));
    let again = table::judge(written);
    say::fact(
        b"judged again they are the same plan",
        same_plan(again.plan, plan),
    );
}

// Writes the plan to `room` bytes. Where it is not refused, `table` is what should come out.
pub fn outcome(plan: Plan, room: usize, table: &[u8]) {
    let mut buffer = [FILL; 400];
    let answer = writer::write(plan, lent(&mut buffer, room));
    match answer {
        Ok(length) => say_length(plan, &buffer, length, table),
        Err(Refusal { number, index }) => {
            say::refusal(b"write", number, index);
            say::fact(b"the buffer is unchanged", untouched(&buffer, 0));
        }
    }
}
