// A plan's tests 3 to 12 and 28 and the slack that it has: offered slack is tested, and slack that is not offered is found.
ghost use Rattle.std.specs.Prelude.{◌≡◌, IfOk, not, eqb, replicate};
ghost use Rattle.tasks.specs.TaskSet.{TaskSet};
ghost use Rattle.tasks.specs.Answer.{answer_of};
ghost use Rattle.tasks.specs.Tests.{refuse};
ghost use Rattle.slack.specs.Loads.{LoadOf};
ghost use Rattle.slack.specs.StageLaws.{Framed};
ghost use Rattle.analysis.specs.SlackTest.{PlanTested, Offered, Unoffered, RatesTested, TasksTested};
ghost use Rattle.fields.specs.Columns.{set_from};
ghost use Rattle.slack.specs.Rates.{Ranges};

use fields::columns::{Columns, split};
use fields::frame::frame;
use fields::ranges::task_ranges;
use slack::amount::{Load, first_names};
use slack::rates::rate;
use tasks::bound::core_for_each;
use tasks::{Plan, Refusal, Rule};
use tidy::tidy_slack;

// The slack of a plan that meets none of 3 to 12 and 28, offered or found, with zeros in unused places, and the tasks by name, those counted at
// that slack first.
#[derive(Clone, Copy)]
pub struct Tested {
    pub slack: [u32; 16],
    pub names: [u8; 16],
}

// Test 12 of offered slack.
fn offered(load: &Load, budget: &[u32; 16], slack: &[u32; 16]) -> Result<Tested, Refusal>
    requires { (s : TaskSet) × LoadOf s load.now budget.now }
    ensures { (s : TaskSet) → LoadOf s load.now budget.now → Offered s slack.now result }
{
    let used = tidy_slack(slack, load.tasks);
    let mut names = first_names();
    let whole = load.amount(&used, &mut names, load.cores - 1);
    let bad = load.first_uncovered(&used, budget, whole);
    if bad < load.tasks {
        return Err(Rule::SlackNotCompliant.at(bad as u16));
    }
    Ok(Tested { slack: used, names })
}

// Slack that is not offered is found.
fn unoffered(load: &Load, budget: &[u32; 16]) -> Tested
    requires { (s : TaskSet) × LoadOf s load.now budget.now }
    ensures { (s : TaskSet) → LoadOf s load.now budget.now → Unoffered s result }
{
    let mut names = first_names();
    let slack = load.search(budget, &mut names);
    Tested { slack, names }
}

// Where loops are no more than cores "offered slack … is refused 11", a loop's "slack is 0", and no task is counted.
fn own_cores(offers: usize) -> Result<Tested, Refusal>
    ensures { (answer_of result ≡ refuse 11 (not (eqb offers 0))) × IfOk result (λ t. t.slack ≡ replicate 16 0) }
{
    if offers != 0 {
        return Err(Rule::SlackCountWrong.at(0));
    }
    Ok(Tested {
        slack: [0; 16],
        names: [0; 16],
    })
}

// Tests 9 to 12, of a task set that meets none of 3 to 8 and 28.
fn test_rated(
    columns: &Columns,
    slack: &[u32; 16],
    cores: usize,
    tasks: usize,
    offers: usize,
) -> Result<Tested, Refusal>
    requires { Framed 1 cores tasks × Ranges (set_from cores tasks columns.now.separation columns.now.budget columns.now.offset) }
    ensures { RatesTested (set_from cores tasks columns.now.separation columns.now.budget columns.now.offset) slack.now offers result }
{
    let rates = rate(
        &columns.separation,
        &columns.budget,
        &columns.offset,
        cores,
        tasks,
    )?;
    if core_for_each(cores, tasks) {
        return own_cores(offers);
    }
    let load = Load {
        share: &rates.share,
        offset: &columns.offset,
        multiple: rates.multiple,
        surplus: rates.surplus,
        cores,
        tasks,
    };
    if offers == 0 {
        return Ok(unoffered(&load, &columns.budget));
    }
    if offers != tasks {
        return Err(Rule::SlackCountWrong.at(0));
    }
    offered(&load, &columns.budget, slack)
}

// Tests 6 to 12, and 28.
fn test_tasks(plan: Plan, offers: usize) -> Result<Tested, Refusal>
    requires { Framed 1 plan.cores plan.tasks }
    ensures { TasksTested plan offers result }
{
    let tasks = plan.tasks;
    let task = plan.task;
    task_ranges(task, tasks, plan.edition)?;
    let columns = split(task, tasks);
    test_rated(&columns, &plan.slack, plan.cores, tasks, offers)
}

// Tests 3 to 12, and 28, with a slack count of `offers`: a table's may be any, a plan's is 0 or n.
pub fn test_slack(plan: Plan, offers: usize) -> Result<Tested, Refusal>
    ensures { PlanTested plan offers result }
{
    frame(plan.cores, &plan.labels, plan.tasks, false)?;
    test_tasks(plan, offers)
}
