// The judgement of a table's bytes, and the part of them that is its slack section.
ghost use Rattle.std.specs.Prelude.{◌≡◌, Err, cond, ◌-◌, ◌≤◌, ◌<◌};
ghost use Rattle.tasks.specs.TaskSet.{core_for_each};
ghost use Rattle.tasks.specs.Answer.{Accepted};
ghost use Rattle.codec.specs.Table.{slack_count, verdict};
ghost use Rattle.table.specs.Judged.{judged, refused_with, slack_part, slack_place};
ghost use Rattle.reader.specs.CountedLaws.{CountsIn};
ghost use Rattle.table.specs.LoadedLaws.{loaded};
ghost use Rattle.table.specs.JudgeLaws.{Judges};

use crate::Judgement;
use analysis::plan_bounds;
use analysis::slack_test::test_slack;
use codec::places::{slack_from, tasks_from};
use reader::{Counts, load_labels, load_slack, load_tasks, read_counts};
use tasks::bound::core_for_each;
use tasks::{Plan, Refusal};
use tidy::{no_plan, tidy_bytes};

// The plan that the table's sections fill.
pub fn load(table: &[u8], counts: Counts) -> Plan
    requires { CountsIn table.now counts.edition counts.cores counts.tasks counts.offers }
    ensures { result ≡ loaded table.now }
{
    let Counts {
        edition,
        cores,
        tasks,
        offers,
    } = counts;
    let labels = load_labels(table, cores);
    let task = load_tasks(table, tasks_from(cores) + 1, tasks, edition);
    let slack = load_slack(table, slack_from(edition, cores, tasks) + 1, offers);
    Plan {
        edition,
        offered: offers != 0,
        cores,
        tasks,
        labels,
        task,
        slack,
    }
}

// How many loops a judgement names: m − 1, and none where loops are no more than cores.
fn named(cores: usize, tasks: usize) -> usize
    requires { 2 ≤ cores }
    ensures { result ≡ cond (core_for_each cores tasks) 0 (cores - 1) }
{
    if core_for_each(cores, tasks) {
        return 0;
    }
    cores - 1
}

// "A refused judgement … hands back a plan … of zeros", and "a refused one names none".
fn refused(refusal: Refusal) -> Judgement
    ensures { result ≡ refused_with (Err refusal) }
{
    let plan = no_plan();
    Judgement {
        answer: Err(refusal),
        plan,
        count: 0,
        counted: [0; 8],
    }
}

// Tests 3 to 13 and 28, of a table that meets neither 1 nor 2. A refusal is taken apart here and not passed on by `?`, for speed: a judgement
// inside a Result is copied once more for each function that it goes through.
fn judge_plan(plan: Plan, offers: usize) -> Judgement
    ensures { Judges plan offers result }
{
    let tested = match test_slack(plan, offers) {
        Ok(tested) => tested,
        Err(refusal) => return refused(refusal),
    };
    let slack = tested.slack;
    if let Err(refusal) = plan_bounds(plan, slack) {
        return refused(refusal);
    }
    let names = tested.names;
    let count = named(plan.cores, plan.tasks);
    let counted = tidy_bytes(&names, count);
    let mut accepted = plan;
    accepted.slack = slack;
    Judgement {
        answer: Ok(()),
        plan: accepted,
        count,
        counted,
    }
}

// The plan of a table, or the first of 1 to 13 and 28 that it meets.
pub fn judge(table: &[u8]) -> Judgement
    ensures { result ≡ judged table.now }
{
    match read_counts(table) {
        Ok(counts) => judge_plan(load(table, counts), counts.offers),
        Err(refusal) => refused(refusal),
    }
}

// "The slack section of a read table is handed back as the caller's own bytes"
pub fn slack_part(table: &[u8]) -> &[u8]
    ensures result_value { result.now ≡ slack_part table.now }
    ensures own_bytes { verdict table.now ≡ Accepted → 0 < slack_count table.now → result.ref_ptr ≡ slack_place table.now table.entry.ref_ptr }
{
    let judgement = judge(table);
    let answer = judgement.answer;
    let Ok(()) = answer else {
        return &table[..0];
    };
    let at = slack_from(
        judgement.plan.edition,
        judgement.plan.cores,
        judgement.plan.tasks,
    ) + 1;
    &table[at..]
}
