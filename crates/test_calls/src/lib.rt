// Lines that make a call and print its case under the name at the line's end.
#![tactic(auto)]

use tasks::Plan;
use test_converts::converted;
use test_engine::calls;
use test_engine::lent::lent;
use test_engine::made::{Job, busy};
use test_logs::run;
use test_script::buffer::{FILL, untouched};
use test_script::line::{Line, front};
use test_script::say;
use test_sentences::told;
use test_tables::{judged, written};
use test_wishes::wished;
use test_world::world::World;

fn say_printed(buffer: &[u8; text::LONGEST], length: usize) {
    say::text(front(buffer, length));
    say::fact(b"later bytes stay", untouched(buffer, length));
}

// `text NAME`: what the program `plan` prints for the table.
fn printed(table: &[u8], name: &[u8]) {
    let mut buffer = [FILL; text::LONGEST];
    say::case(b"text ", name);
    let length = text::text(table, &mut buffer);
    say_printed(&buffer, length);
}

// `convert EDITION ROOM NAME`.
fn convert(table: &[u8], mut words: Line) {
    let edition = words.number32();
    let room = words.number() as usize;
    converted(words.rest(), table, edition, room);
}

// `write ROOM NAME`: the table is what should come out.
fn write(plan: Plan, table: &[u8], mut words: Line) {
    let room = words.number() as usize;
    say::case(b"plan ", words.rest());
    written::outcome(plan, room, table);
}

// `run ROOM NAME`.
fn run_log(table: &[u8], log: &[u8], mut words: Line) {
    let room = words.number() as usize;
    run::bytes(words.rest(), table, log, room);
}

// `sentence ROOM NUMBER INDEX VALUE NAME`.
fn sentence(mut words: Line) {
    let room = words.number() as usize;
    let refusal = words.number32();
    let index = words.number32();
    let value = words.number();
    say::case(b"sentence ", words.rest());
    told(refusal, index, value, room);
}

fn job(words: &mut Line) -> Job {
    let release = words.number32();
    let work = words.number32();
    Job { release, work }
}

// `lent CLOCK RELEASE WORK RELEASE WORK NAME`: the plan at this tick with a job of loop 0 and one of loop 1, lent to `step_in_place`.
fn lend(plan: Plan, mut words: Line) {
    let clock = words.number32();
    let first = job(&mut words);
    let second = job(&mut words);
    lent(words.rest(), busy(plan, clock, first, second));
}

pub fn act(world: &World, what: &[u8], words: Line) {
    let table = world.table.as_slice();
    match what {
        b"judge" => judged::bytes(words.rest(), table),
        b"text" => printed(table, words.rest()),
        b"wish" => wished(words.rest(), table),
        b"convert" => convert(table, words),
        b"sentence" => sentence(words),
        b"open" => calls::open(words.rest(), world.plan),
        b"lent" => lend(world.plan, words),
        b"write" => write(world.plan, table, words),
        b"run" => run_log(table, world.log.as_slice(), words),
        _ => say::text(b"not understood: a call's line\n"),
    }
}
