// Lines about the plan: it is the judged table's, and then changed, right or wrong. A place that a plan doesn't have changes nothing.
ghost use Rattle.std.specs.Prelude.{◌≡◌};

use crate::world::World;
use tasks::Plan;
use test_script::line::Line;
use test_script::say;

// `label CORE VALUE`.
fn label(plan: &mut Plan, mut words: Line) {
    let core = words.number() as usize;
    if core < 8 {
        plan.labels[core] = words.number8();
    }
}

// `loop I T C Y`: the deadline stays.
fn task(plan: &mut Plan, mut words: Line) {
    let i = words.number() as usize;
    if i < 16 {
        plan.task[i].separation = words.number32();
        plan.task[i].budget = words.number32();
        plan.task[i].offset = words.number32();
    }
}

// `deadline I D`.
fn deadline(plan: &mut Plan, mut words: Line) {
    let i = words.number() as usize;
    if i < 16 {
        plan.task[i].deadline = words.number32();
    }
}

// `slack I X`.
fn slack(plan: &mut Plan, mut words: Line) {
    let i = words.number() as usize;
    if i < 16 {
        plan.slack[i] = words.number32();
    }
}

// `edition E`, `offered 1` or `offered 0`, `cores N`, `loops N`.
fn counts(plan: &mut Plan, what: &[u8], mut words: Line) {
    match what {
        b"edition" => plan.edition = words.number8(),
        b"offered" => plan.offered = words.number() == 1,
        b"cores" => plan.cores = words.number() as usize,
        b"loops" => plan.tasks = words.number() as usize,
        _ => say::text(b"not understood: a plan's line\n"),
    }
}

pub fn act(world: &mut World, what: &[u8], words: Line)
    ensures { (world.new.table ≡ world.old.table) × (world.new.log ≡ world.old.log) }
{
    match what {
        b"judged" => world.plan = table::judge(world.table.as_slice()).plan,
        b"label" => label(&mut world.plan, words),
        b"loop" => task(&mut world.plan, words),
        b"deadline" => deadline(&mut world.plan, words),
        b"slack" => slack(&mut world.plan, words),
        _ => counts(&mut world.plan, what, words),
    }
}
