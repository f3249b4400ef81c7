// From a wish sheet's bytes to a plan: document 02, §3.
#![tactic(auto)]

ghost use Rattle.std.specs.Prelude.{◌≡◌, ◌≤◌};
ghost use Rattle.laws.specs.Tab.{tab, cut};
ghost use Rattle.tasks.specs.TaskSet.{row};
ghost use Rattle.tasks.specs.Content.{in_edition, no_task, task_of};
ghost use Rattle.wishes.specs.Wish.{with_offset};
ghost use Rattle.sheet.specs.Wished.{wish_of, handed};
ghost use Rattle.sheet.specs.WishedLaws.{Wishes};

use reader::read_counts;
use std::array;
use table::load;
use tasks::edition::deadline_in;
use tasks::{Plan, Refusal, Task};
use tidy::{no_plan, no_task};
use wish_search::solve::solve_plan;

// The plan that is found for a sheet, marked as found; of zeros where the sheet is refused, as a judgement's, so that it is no Result.
#[derive(Clone, Copy)]
pub struct Wished {
    pub answer: Result<(), Refusal>,
    pub plan: Plan,
}

// The first tasks with these offsets in their wishes' place, tasks of zeros after them.
fn with_offsets(edition: u8, task: [Task; 16], offset: &[u32; 16], tasks: usize) -> [Task; 16]
    requires { tasks ≤ 16 }
    ensures { result ≡ tab (cut tasks (λ i. with_offset (in_edition edition (task_of task i)) (row offset.now i)) no_task) 16 }
{
    array::from_fn(|i| if i < tasks {
        let t = task[i];
        Task {
            offset: offset[i],
            deadline: deadline_in(edition, t.deadline),
            ..t
        }
    } else {
        no_task()
    })
}

// The tests of a sheet that meets neither 1 nor 2, and its plan.
fn wish_plan(plan: Plan, offers: usize) -> Result<Plan, Refusal>
    ensures { Wishes plan offers (handed result) }
{
    let solved = solve_plan(plan, offers)?;
    let wishing = plan.task;
    let offset = solved.offset;
    let task = with_offsets(plan.edition, wishing, &offset, plan.tasks);
    let slack = solved.slack;
    let mut found = plan;
    found.offered = false;
    found.task = task;
    found.slack = slack;
    Ok(found)
}

// The tests of a sheet, and its plan.
fn wish_sheet(sheet: &[u8]) -> Result<Plan, Refusal>
    ensures { handed result ≡ wish_of sheet.now }
{
    let counts = read_counts(sheet)?;
    wish_plan(load(sheet, counts), counts.offers)
}

// "Find whole offsets 0 to T and compliant whole slack with Y + x + C at most W for every loop."
pub fn wish(sheet: &[u8]) -> Wished
    ensures { result ≡ wish_of sheet.now }
{
    match wish_sheet(sheet) {
        Ok(plan) => Wished {
            answer: Ok(()),
            plan,
        },
        Err(refusal) => Wished {
            answer: Err(refusal),
            plan: no_plan(),
        },
    }
}
