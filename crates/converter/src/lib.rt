// From a table of one edition to a table of the other: document 02, §6.
#![tactic(auto)]

ghost use Rattle.std.specs.Prelude.{◌≡◌, cond, ◌||◌, ◌≤◌, length, eqb};
ghost use Rattle.laws.specs.First.{first};
ghost use Rattle.laws.specs.Tab.{tab};
ghost use Rattle.tasks.specs.Content.{has_deadlines, task_of};
ghost use Rattle.tasks.specs.Tests.{bad_edition};
ghost use Rattle.codec.specs.Table.{edition_in};
ghost use Rattle.writer.specs.Written.{answer_of_written, length_of_written};
ghost use Rattle.conversion.specs.Converted.{converted_task, no_offset, other_deadline, way_test, fit_test, convert_test, converted_length, converted_to};
ghost use Rattle.converter.specs.ConverterLaws.{converted_plan};

use table::judge;
use tasks::bound::core_for_each;
use tasks::edition::{deadline_in, has_deadlines, is_unknown};
use tasks::{Plan, Refusal, Rule, Task};
use tidy::no_task;
use writer::write_accepted;

// "A table already in the wanted edition, or a wanted edition other than 1 and 2". A table without an edition byte is in none.
fn is_unwanted(table: &[u8], edition: u32) -> bool
    ensures { result ≡ bad_edition edition || eqb (edition_in table.now) edition }
{
    if 255 < edition {
        return true;
    }
    let wanted = edition as u8;
    if is_unknown(wanted) {
        return true;
    }
    if table.len() < 1 {
        return false;
    }
    table[0] == wanted
}

// "an offset is 0 on the way to edition 2", "a deadline differs from its offset on the way to edition 1".
fn is_unfit(task: Task, edition: u8) -> bool
    ensures { result ≡ cond (has_deadlines edition) (no_offset task) (other_deadline task) }
{
    if has_deadlines(edition) {
        return task.offset == 0;
    }
    task.deadline != task.offset
}

fn first_unfit(task: [Task; 16], tasks: usize, edition: u8) -> usize
    requires { tasks ≤ 16 }
    ensures { result ≡ first (λ i. cond (has_deadlines edition) (no_offset (task_of task i)) (other_deadline (task_of task i))) tasks }
{
    task[..tasks]
        .iter()
        .position(|t| is_unfit(*t, edition))
        .unwrap_or(tasks)
}

// 29 or 30, at the lowest task that meets it.
fn test_way(task: [Task; 16], tasks: usize, edition: u8) -> Result<(), Refusal>
    requires { tasks ≤ 16 }
    ensures { result ≡ way_test edition (task_of task) tasks }
{
    let at = first_unfit(task, tasks, edition);
    if at == tasks {
        return Ok(());
    }
    let index = at as u16;
    if has_deadlines(edition) {
        return Err(Rule::OffsetZero.at(index));
    }
    Err(Rule::DeadlineNotOffset.at(index))
}

// 31, "tested before 29 and 30".
fn test_fit(cores: usize, task: [Task; 16], tasks: usize, edition: u8) -> Result<(), Refusal>
    requires { tasks ≤ 16 }
    ensures { result ≡ fit_test edition cores (task_of task) tasks }
{
    if core_for_each(cores, tasks) {
        return Err(Rule::TasksTooFew.at(0));
    }
    test_way(task, tasks, edition)
}

// "giving each loop its offset as deadline"; an unused place stays one.
fn convert_tasks(task: [Task; 16], edition: u8) -> [Task; 16]
    ensures { result ≡ tab (λ i. converted_task edition (task_of task i)) 16 }
{
    let mut out = [no_task(); 16];
    for i in 0..16 {
        let t = task[i];
        out[i] = Task {
            deadline: deadline_in(edition, t.offset),
            ..t
        };
    }
    out
}

// The plan in the wanted edition.
fn convert_plan(plan: Plan, edition: u8) -> Plan
    ensures { result ≡ converted_plan edition plan }
{
    let from = plan.task;
    let task = convert_tasks(from, edition);
    let mut out = plan;
    out.edition = edition;
    out.task = task;
    out
}

// "Convert to edition 2 by giving each loop its offset as deadline, and back where every deadline equals its offset."
pub fn convert(table: &[u8], edition: u32, out: &mut [u8]) -> Result<usize, Refusal>
    ensures { (answer_of_written result ≡ convert_test edition table.now (length out.old))
        × (length_of_written result ≡ converted_length edition table.now (length out.old))
        × (out.new ≡ converted_to edition table.now out.old) }
{
    if is_unwanted(table, edition) {
        return Err(Rule::EditionUnknown.at(0));
    }
    let judgement = judge(table);
    judgement.answer?;
    let plan = judgement.plan;
    let wanted = edition as u8;
    let task = plan.task;
    test_fit(plan.cores, task, plan.tasks, wanted)?;
    write_accepted(convert_plan(plan, wanted), out)
}
