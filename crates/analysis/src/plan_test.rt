// The test of a plan that is handed in unchecked, by 1, 3 to 13 and 28: the writer's and the opening's.
ghost use Rattle.std.specs.Prelude.{◌≡◌, cond, not, ◌≤◌, eqb};
ghost use Rattle.laws.specs.First.{first};
ghost use Rattle.tasks.specs.TaskSet.{row};
ghost use Rattle.tasks.specs.Content.{content_of};
ghost use Rattle.tasks.specs.Tests.{tests, test_plan};
ghost use Rattle.analysis.specs.PlanTest.{bounds_of, found_tests};

use crate::slack_test::test_slack;
use fields::bounds::bounds;
use tasks::edition::is_unknown;
use tasks::{Plan, Refusal, Rule};

// The lowest task at which the two slacks differ, or `tasks` where there is none.
fn first_other(slack: &[u32; 16], found: &[u32; 16], tasks: usize) -> usize
    requires { tasks ≤ 16 }
    ensures { result ≡ first (λ i. not (eqb (row slack.now i) (row found.now i))) tasks }
{
    for i in 0..tasks {
        if slack[i] != found[i] {
            return i;
        }
    }
    tasks
}

// Test 13 of a plan's tasks with this slack.
pub fn plan_bounds(plan: Plan, slack: [u32; 16]) -> Result<(), Refusal>
    requires { plan.tasks ≤ 16 }
    ensures { result ≡ bounds_of plan slack }
{
    bounds(plan, slack)
}

// 12 and 13 of a plan marked as found: its slack against the found one.
fn found_test(plan: Plan, found: [u32; 16]) -> Result<(), Refusal>
    requires { plan.tasks ≤ 16 }
    ensures { result ≡ found_tests plan found }
{
    let tasks = plan.tasks;
    let slack = plan.slack;
    let other = first_other(&slack, &found, tasks);
    if other < tasks {
        return Err(Rule::SlackNotCompliant.at(other as u16));
    }
    plan_bounds(plan, found)
}

// The slack count of a plan's table: "The writer writes found slack as count 0".
pub fn slack_count(offered: bool, tasks: usize) -> usize
    ensures { (result ≡ cond offered tasks 0) × (result ≤ tasks) }
{
    if offered { tasks } else { 0 }
}

// 3 to 13, and 28.
fn test_entries(plan: Plan) -> Result<(), Refusal>
    ensures { result ≡ tests (content_of plan) }
{
    let offers = slack_count(plan.offered, plan.tasks);
    let had = test_slack(plan, offers)?.slack;
    if offers == 0 {
        return found_test(plan, had);
    }
    plan_bounds(plan, had)
}

// "a plan of another edition meets 1 too"
pub fn test(plan: Plan) -> Result<(), Refusal>
    ensures { result ≡ test_plan plan }
{
    if is_unknown(plan.edition) {
        return Err(Rule::EditionUnknown.at(0));
    }
    test_entries(plan)
}
