// The calls on a state that are offered to others: each tests what it is handed, and answers for every input.
ghost use Rattle.std.specs.Prelude.{◌≡◌, ◌≤◌};
ghost use Rattle.machine.specs.Admission.{admit_tests};
ghost use Rattle.state.specs.State.{machine_of};
ghost use Rattle.state.specs.declared.Stepped.{Stepped};
ghost use Rattle.state.specs.Fit.{Shaped};
ghost use Rattle.state.specs.Calls.{open_of, tasks_of, step_tests, release_of, step_of};

use crate::empty::{empty, zeros};
use admission::admission_test;
use advance::{Ran, admit, tick};
use analysis::test;
use soundness::sound;
use state::{Opened, Released, State, Stepped};
use tasks::{Plan, Refusal, Rule, limits};
use tidy::tidied;

// 18 and 19 of a state.
fn step_test(state: &State) -> Result<(), Refusal>
    ensures { result ≡ step_tests state.now }
{
    if !sound(state) {
        return Err(Rule::StateNotSound.at(0));
    }
    if state.clock == limits::CLOCK_END {
        return Err(Rule::ClockAtItsEnd.at(0));
    }
    Ok(())
}

// 20 to 23 of a loop of a state.
fn task_test(state: &State, task: usize, demand: u32) -> Result<(), Refusal>
    requires { state.now.plan.tasks ≤ 16 }
    ensures { result ≡ admit_tests (tasks_of state.now) (machine_of state.now) task demand }
{
    if state.plan.tasks <= task {
        return Err(Rule::TaskNotInTable.at(0));
    }
    let t = state.plan.task[task];
    let clock = state.clock;
    let held = state.jobs[task];
    let flag = state.released[task];
    let since = state.last[task];
    admission_test(t.separation, t.budget, clock, demand, held, flag, since)
}

// Opens the engine on a plan.
pub fn open(plan: Plan) -> Opened
    ensures { result ≡ open_of plan }
{
    let answer = test(plan);
    let Ok(()) = answer else {
        let state = zeros();
        return Opened { answer, state };
    };
    let tidy = tidied(plan);
    let state = empty(tidy);
    Opened {
        answer: Ok(()),
        state,
    }
}

// A release of a state where it lies: a refused one leaves it as it is.
pub fn release_lent(state: &mut State, task: usize, demand: u32) -> Result<(), Refusal>
    requires { Shaped state.old }
    ensures { (result ≡ (release_of state.old task demand).answer) × (state.new ≡ (release_of state.old task demand).state) }
{
    step_test(state)?;
    task_test(state, task, demand)?;
    admit(state, task, demand);
    Ok(())
}

// Hands the engine a release of a task, with its demand.
pub fn release(state: State, task: usize, demand: u32) -> Released
    ensures { result ≡ release_of state task demand }
{
    let mut state = state;
    let answer = release_lent(&mut state, task, demand);
    Released { answer, state }
}

// What a step of a state where it lies says; where it is refused, every core is idle and no task finished.
#[derive(Clone, Copy)]
pub struct Ticked {
    pub answer: Result<(), Refusal>,
    pub runs: [u8; 8],
    pub responses: [u32; 16],
}

// A step of a state where it lies: a refused one leaves it as it is.
pub fn step_lent(state: &mut State) -> Ticked
    requires { Shaped state.old }
    ensures { ◌≡◌ {A = Stepped} (record { answer = result.answer; state = state.new; runs = result.runs; responses = result.responses }) (step_of state.old) }
{
    let answer = step_test(state);
    let Ok(()) = answer else {
        return Ticked {
            answer,
            runs: [255u8; 8],
            responses: [0u32; 16],
        };
    };
    let Ran { runs, responses } = tick(state);
    Ticked {
        answer,
        runs,
        responses,
    }
}

// Steps the engine by one tick.
pub fn step(state: State) -> Stepped
    ensures { result ≡ step_of state }
{
    let mut state = state;
    let Ticked {
        answer,
        runs,
        responses,
    } = step_lent(&mut state);
    Stepped {
        answer,
        state,
        runs,
        responses,
    }
}
