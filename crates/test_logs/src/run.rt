// A log's case: what `run_log` answers to it and what it leaves in the lent answer.
ghost use Rattle.std.specs.Prelude.{◌+◌, ◌≤◌, ◌<◌};

use replay::Ran;
use tasks::Refusal;
use test_script::buffer::{FILL, lent, untouched};
use test_script::say;

// The four bytes at `at`, low byte first.
fn number_at(buffer: &[u8; 400], at: usize) -> u32
    requires { at ≤ 396 }
{
    u32::from_le_bytes([buffer[at], buffer[at + 1], buffer[at + 2], buffer[at + 3]])
}

// "kind 1 and finish tick, or kind 2 and refusal number, 4 bytes each".
fn say_entry(i: usize, kind: u32, value: u32) {
    say::number(b"entry ", i as u64);
    match kind {
        1 => say::number(b" finished ", u64::from(value)),
        2 => say::number(b" refused ", u64::from(value)),
        _ => say::number(b" of no kind ", u64::from(value)),
    }
    say::text(b"\n");
}

fn say_entries(buffer: &[u8; 400], count: usize) {
    for i in 0..count.min(50) {
        let at = 8 * i;
        say_entry(i, number_at(buffer, at), number_at(buffer, at + 4));
    }
}

// "The call returns how many were taken and how many refused."
fn say_counts(taken: usize, refused: usize) {
    say::number(b"run taken ", taken as u64);
    say::number(b" refused ", refused as u64);
    say::text(b"\n");
}

// "Bytes beyond these stay", and of a refused call "Nothing lent is written … and counts are 0".
fn say_run(ran: Ran, buffer: &[u8; 400])
    requires { ran.taken + ran.refused < 65536 }
{
    let answer = ran.answer;
    match answer {
        Ok(()) => {
            say_counts(ran.taken, ran.refused);
            let count = ran.taken + ran.refused;
            say_entries(buffer, count);
            say::fact(b"later bytes stay", untouched(buffer, 8 * count));
        }
        Err(Refusal { number, index }) => {
            say::refusal(b"run", number, index);
            say::fact(b"the counts are 0", ran.taken == 0 && ran.refused == 0);
            say::fact(b"the buffer is unchanged", untouched(buffer, 0));
        }
    }
}

// A table and a log of any bytes.
pub fn bytes(name: &[u8], table: &[u8], log: &[u8], room: usize) {
    say::case(b"log ", name);
    let mut buffer = [FILL; 400];
    let ran = replay::run_log(table, log, lent(&mut buffer, room));
    say_run(ran, &buffer);
}
