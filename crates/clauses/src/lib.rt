// The clauses of *sound* that look at the places of a state: the unused ones of its table part, each loop's, and each job's.
#![tactic(auto)]

ghost use Rattle.std.specs.Prelude.{◌≡◌, true, not, ◌&&◌, ◌||◌, ℕ, ◌+◌, ◌-◌, ◌≤◌, ◌<◌, ltb, leb, eqb};
ghost use Rattle.tasks.specs.TaskSet.{row};
ghost use Rattle.tasks.specs.Content.{has_deadlines, zero_task, task_of};
ghost use Rattle.state.specs.SoundState.{all_of, loop_test};
ghost use Rattle.clauses.specs.SoundTests.{label_zero, task_zero, loop_holds, place_holds, place_in};

use state::State;
use tasks::edition::has_deadlines;
use tasks::{Plan, Task, limits};
use tidy::is_no_task;

fn label_zero(i: usize, cores: usize, label: u8) -> bool
    ensures { result ≡ ltb i cores || eqb label 0 }
{
    i < cores || label == 0
}

fn task_zero(i: usize, tasks: usize, task: Task, slack: u32) -> bool
    ensures { result ≡ ltb i tasks || (zero_task task && eqb slack 0) }
{
    i < tasks || (is_no_task(task) && slack == 0)
}

// "the deadline, an unused place in edition 1"
fn deadline_zero(edition: u8, deadline: u32) -> bool
    ensures { result ≡ has_deadlines edition || eqb deadline 0 }
{
    has_deadlines(edition) || deadline == 0
}

// "every unused place, also in the table part, is zero": the cores' labels
pub fn labels_zero(plan: &Plan) -> bool
    ensures { result ≡ all_of (label_zero plan.now.cores plan.now.labels) 8 }
{
    for i in 0..8 {
        if !label_zero(i, plan.cores, plan.labels[i]) {
            return false;
        }
    }
    true
}

// The same of the tasks and their slack.
pub fn tasks_zero(plan: &Plan) -> bool
    ensures { result ≡ all_of (task_zero plan.now.edition plan.now.tasks plan.now.task plan.now.slack) 16 }
{
    for i in 0..16 {
        let t = plan.task[i];
        if !task_zero(i, plan.tasks, t, plan.slack[i]) {
            return false;
        }
        if !deadline_zero(plan.edition, t.deadline) {
            return false;
        }
    }
    true
}

// A task that isn't in the table holds nothing, and its flag is clear.
fn held(known: bool, jobs: usize, flag: bool) -> bool
    ensures { result ≡ known || (eqb jobs 0 && not flag) }
{
    known || (jobs == 0 && !flag)
}

// "a loop without a taken release has 0 as its tick"
fn clear(flag: bool, last: u32) -> bool
    ensures { result ≡ flag || eqb last 0 }
{
    flag || last == 0
}

// The last taken release "is the newest pending one where any is pending".
fn recent(jobs: usize, flag: bool, last: u32, newest: u32) -> bool
    ensures { result ≡ eqb jobs 0 || (flag && eqb last newest) }
{
    jobs == 0 || (flag && last == newest)
}

fn loop_sound(known: bool, clock: u32, jobs: usize, flag: bool, last: u32, newest: u32) -> bool
    ensures { result ≡ loop_test known clock jobs flag last newest }
{
    jobs <= limits::JOBS_HIGH
        && held(known, jobs, flag)
        && clear(flag, last)
        && last <= clock
        && recent(jobs, flag, last, newest)
}

fn loop_at(state: &State, i: usize) -> bool
    requires { i < 16 }
    ensures { result ≡ loop_holds state.now.plan.tasks state.now.clock state.now.jobs state.now.released state.now.last state.now.release i }
{
    let held = state.jobs[i];
    if limits::JOBS_HIGH < held {
        return false;
    }
    let newest = state.release[16 * i + held.saturating_sub(1)];
    loop_sound(
        i < state.plan.tasks,
        state.clock,
        held,
        state.released[i],
        state.last[i],
        newest,
    )
}

pub fn loops(state: &State) -> bool
    ensures { result ≡ all_of (loop_holds state.now.plan.tasks state.now.clock state.now.jobs state.now.released state.now.last state.now.release) 16 }
{
    for i in 0..16 {
        if !loop_at(state, i) {
            return false;
        }
    }
    true
}

// The clauses about a used place: "each loop's pending releases rise by at least T and are not after the clock", "remaining work is 1 to C".
// `least` is what the release has to reach.
fn used_sound(least: u64, budget: u32, clock: u32, release: u32, remaining: u32) -> bool
    ensures { result ≡ leb least release && (leb release clock && (leb 1 remaining && leb remaining budget)) }
{
    least <= release as u64 && release <= clock && 1 <= remaining && remaining <= budget
}

// The used places of loop `i`, whose task is `task`. The first release has to reach nothing.
fn used_places(state: &State, i: usize, task: Task, jobs: usize) -> bool
    requires { (i < 16) × (jobs ≤ 16) }
    ensures { result
        ≡ all_of
        (place_in task.separation task.budget state.now.clock jobs state.now.release state.now.remaining i)
        jobs }
{
    let first = 16 * i;
    let mut least = 0u64;
    for p in 0..jobs {
        let released = state.release[first + p];
        if !used_sound(
            least,
            task.budget,
            state.clock,
            released,
            state.remaining[first + p],
        ) {
            return false;
        }
        least = released as u64 + task.separation as u64;
    }
    true
}

// "every unused place … is zero": those of loop `i`. Each is looked at, also after one that is not zero, so that the compiler can take several
// at a time.
fn unused_places(state: &State, i: usize, jobs: usize) -> bool
    requires { (i < 16) × (jobs ≤ 16) }
    ensures { (T C t : ℕ)
        → all_of (place_in T C t jobs state.now.release state.now.remaining i) jobs ≡ true
        → result ≡ all_of (place_in T C t jobs state.now.release state.now.remaining i) 16 }
{
    let first = 16 * i;
    let mut zero = true;
    for p in jobs..16 {
        zero &= (state.release[first + p] == 0) & (state.remaining[first + p] == 0);
    }
    zero
}

// The places of loop `i`. Most loops hold nothing: for them the compiler knows how many places are looked at.
fn loop_places(state: &State, i: usize) -> bool
    requires { (i < 16) × (row state.now.jobs i ≤ 16) }
    ensures { result
        ≡ all_of
        (place_in
        (task_of state.now.plan.task i).separation
        (task_of state.now.plan.task i).budget
        state.now.clock
        (row state.now.jobs i)
        state.now.release
        state.now.remaining
        i)
        16 }
{
    let jobs = state.jobs[i];
    if jobs == 0 {
        return unused_places(state, i, 0);
    }
    used_places(state, i, state.plan.task[i], jobs) && unused_places(state, i, jobs)
}

// The clauses about all 256 places, loop by loop, of loops that hold at most 16 jobs each.
pub fn places(state: &State) -> bool
    requires { (i : ℕ) → i < 16 → row state.now.jobs i ≤ 16 }
    ensures { result ≡ all_of (place_holds state.now.plan.task state.now.clock state.now.jobs state.now.release state.now.remaining) 256 }
{
    for i in 0..16 {
        if !loop_places(state, i) {
            return false;
        }
    }
    true
}
