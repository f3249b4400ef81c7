// The tests of a wish sheet, and the offsets and the slack that are found for it.
ghost use Rattle.std.specs.Prelude.{◌+◌};
ghost use Rattle.fields.specs.Columns.{set_from};
ghost use Rattle.slack.specs.StageLaws.{Framed};
ghost use Rattle.wish_search.specs.Solved.{WishRanges, RatesSolved, TasksSolved, PlanSolved};

use crate::search::Sheet;
use fields::columns::{Columns, split};
use fields::frame::frame;
use fields::ranges::wish_ranges;
use slack::amount::first_names;
use slack::rates::rate;
use tasks::{Plan, Refusal, Rule};
use wish_offsets::{first_past, offsets, rooms};

// The offsets and the slack that are found for a sheet that meets none of its tests, with zeros in unused places.
#[derive(Clone, Copy)]
pub struct Solved {
    pub offset: [u32; 16],
    pub slack: [u32; 16],
}

// Tests 9, 10, 11 and 27, of a sheet with its wishes as offsets that meets none of 3 to 7 and 26.
fn solve(columns: &Columns, cores: usize, tasks: usize, offers: usize) -> Result<Solved, Refusal>
    requires { Framed (cores + 1) cores tasks × WishRanges (set_from cores tasks columns.now.separation columns.now.budget columns.now.offset) }
    ensures { RatesSolved (set_from cores tasks columns.now.separation columns.now.budget columns.now.offset) offers result }
{
    let separation = &columns.separation;
    let budget = &columns.budget;
    let room = rooms(&columns.offset, budget, tasks);
    let none = [0u32; 16];
    let widest = offsets(separation, &room, &none, tasks);
    let rates = rate(separation, budget, &widest, cores, tasks)?;
    if offers != 0 {
        return Err(Rule::SlackCountWrong.at(0));
    }
    let sheet = Sheet {
        share: &rates.share,
        separation,
        room: &room,
        multiple: rates.multiple,
        cores,
        tasks,
    };
    let mut names = first_names();
    let slack = sheet.search(budget, &mut names);
    if first_past(&slack, &room, tasks) < tasks {
        return Err(Rule::NoSolution.at(0));
    }
    let offset = offsets(separation, &room, &slack, tasks);
    Ok(Solved { offset, slack })
}

// Tests 6, 7, 26, 28, 9, 10, 11 and 27.
fn solve_tasks(plan: Plan, offers: usize) -> Result<Solved, Refusal>
    requires { Framed (plan.cores + 1) plan.cores plan.tasks }
    ensures { TasksSolved plan offers result }
{
    let tasks = plan.tasks;
    let task = plan.task;
    wish_ranges(task, tasks, plan.edition)?;
    let columns = split(task, tasks);
    solve(&columns, plan.cores, tasks, offers)
}

// All tests of a sheet's entries, with a slack count of `offers`.
pub fn solve_plan(plan: Plan, offers: usize) -> Result<Solved, Refusal>
    ensures { PlanSolved plan offers result }
{
    frame(plan.cores, &plan.labels, plan.tasks, true)?;
    solve_tasks(plan, offers)
}
