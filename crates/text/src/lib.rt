// The text that the program `plan` prints for a table. Document 01, the end of "Worked tables", and document 02, §1 and §5.
#![tactic(auto)]

ghost use Rattle.std.specs.Prelude.{◌≡◌, ◌++◌, ℕ, ◌+◌, ◌-◌, ◌≤◌, ◌<◌, length, take, drop};
ghost use Rattle.decimal.specs.Decimal.{Stored};
ghost use Rattle.tasks.specs.Answer.{Accepted};
ghost use Rattle.tasks.specs.TaskSet.{row};
ghost use Rattle.tasks.specs.Content.{late_of, content_of};
ghost use Rattle.tasks.specs.Tests.{test_plan};
ghost use Rattle.text.specs.Printed.{pair_line, task_line, refusal_line, counted_line, plan_lines, printed};

use decimal::{put_said, put_words};
use table::judge;
use tasks::bound::{bound, core_for_each};
use tasks::edition::has_deadlines;
use tasks::{Plan, Task};

// The length of the buffer that `text` is lent. No text is longer: the longest has a first line of at most 17 bytes, sixteen of at most 49
// and a last one of at most 32.
pub const LONGEST: usize = 1024;

// "the larger of 0 and bound minus offset, or minus deadline in edition 2".
fn late(edition: u8, task: Task, bound: u64) -> u64
    ensures { result ≡ late_of edition task bound }
{
    let due = if has_deadlines(edition) {
        task.deadline
    } else {
        task.offset
    };
    bound.saturating_sub(due as u64)
}

// A line of words and a number, twice, from the buffer's beginning on.
fn put_pair(out: &mut [u8], first: &[u8], a: u64, second: &[u8], b: u64) -> usize
    requires { length (pair_line first.now a second.now b) ≤ length out.old }
    ensures { Stored out.old 0 (pair_line first.now a second.now b) result out.new }
{
    let middle = put_said(out, 0, first, a);
    let end = put_said(out, middle, second, b);
    put_words(out, end, b"\n")
}

// What a loop's line says behind its index.
#[derive(Clone, Copy)]
struct Figures {
    slack: u32,
    bound: u64,
    late: u64,
}

// The line of one loop, from `at` on: "index, x, bound and late".
fn put_task(out: &mut [u8], at: usize, i: usize, of: Figures) -> usize
    requires { at + length (task_line i of.slack of.bound of.late) ≤ length out.old }
    ensures { Stored out.old at (task_line i of.slack of.bound of.late) result out.new }
{
    let first = put_said(out, at, b"loop ", i as u64);
    let second = put_said(out, first, b" slack ", of.slack as u64);
    let third = put_said(out, second, b" bound ", of.bound);
    let fourth = put_said(out, third, b" late ", of.late);
    put_words(out, fourth, b"\n")
}

// The lines of an accepted plan, but for the last.
fn put_plan(out: &mut [u8], plan: Plan) -> usize
    requires { (test_plan plan ≡ Accepted) × (1024 ≤ length out.old) }
    ensures { Stored out.old 0 (plan_lines (content_of plan)) result out.new }
{
    let edition = plan.edition;
    let tasks = plan.tasks;
    let task = plan.task;
    let slack = plan.slack;
    let each = core_for_each(plan.cores, tasks);
    let mut at = put_pair(out, b"cores ", plan.cores as u64, b" loops ", tasks as u64);
    for i in 0..tasks {
        let t = task[i];
        let x = slack[i];
        let b = bound(each, t, x);
        let figures = Figures {
            slack: x,
            bound: b,
            late: late(edition, t, b),
        };
        at = put_task(out, at, i, figures);
    }
    at
}

// "one more last line, `counted` and the loops, a space before each", from `at` on.
fn put_counted(out: &mut [u8], at: usize, counted: [u8; 8], count: usize) -> usize
    requires { (count ≤ 8) × ((a : ℕ) → a < count → row counted a < 16) × (at + 32 ≤ length out.old) }
    ensures { Stored out.old at (counted_line (take count counted)) result out.new }
{
    let mut end = put_words(out, at, b"counted");
    for name in &counted[..count] {
        end = put_said(out, end, b" ", *name as u64);
    }
    put_words(out, end, b"\n")
}

// "A refusal prints one line", number and index.
fn put_refusal(out: &mut [u8], number: u8, index: u16) -> usize
    requires { 1024 ≤ length out.old }
    ensures { Stored out.old 0 (refusal_line number index) result out.new }
{
    put_pair(out, b"refused ", number as u64, b" at ", index as u64)
}

// The text for a table's bytes, from the buffer's beginning on; later bytes stay. How long it is comes back.
pub fn text(table: &[u8], out: &mut [u8; LONGEST]) -> usize
    ensures { (result ≡ length (printed table.now))
        × (out.new ≡ printed table.now ++ drop (length (printed table.now)) out.old) }
{
    let judgement = judge(table);
    match judgement.answer {
        Ok(()) => {
            let lines = put_plan(out, judgement.plan);
            put_counted(out, lines, judgement.counted, judgement.count)
        }
        Err(refusal) => put_refusal(out, refusal.number, refusal.index),
    }
}
