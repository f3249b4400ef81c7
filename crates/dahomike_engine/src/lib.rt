// The engine for a controller in C: its calls as C functions over a lent state of 653 words.
#![tactic(auto)]

ghost use Rattle.std.specs.Prelude.{◌≡◌, not, ℕ, ◌≤◌, ◌<◌};
ghost use Rattle.std.proofs.lemmas.List.Edits.{sets};
ghost use Rattle.tasks.specs.TaskSet.{row};
ghost use Rattle.tasks.specs.Tests.{refuse};
ghost use Rattle.dahomike_answer.specs.Number.{told_number};
ghost use Rattle.engine_words.specs.Words.{machine_words, words_of, fits};
ghost use Rattle.engine_lent.specs.Lent.{open_number, open_leaves, release_number, release_leaves, step_number, step_leaves, runs_leave, responses_leave};

use dahomike_answer::answer;
use engine::{open, release_lent, step_lent};
use engine_store::put::{put_machine, put_plan};
use engine_store::read::{fit, flags, jobs, numbers, plan, read};
use state::State;
use table::judge;
use tasks::{Refusal, Rule};

// "Words that don't fit make a state that isn't sound: 18."
fn fitting(words: &[u32; 653]) -> Result<(), Refusal>
    ensures { result ≡ refuse 18 (not (fits words.now)) }
{
    if !fit(words) {
        return Err(Rule::StateNotSound.at(0));
    }
    Ok(())
}

// The words behind the plan's: a release and a step leave the plan as it is. The state is handed over by value, for speed: of a lent one the
// compiler can't see that it lies apart from the words, and an opening, whose arrays are all zeros, made them three times over.
fn put_rest(words: &mut [u32; 653], state: State)
    requires { (i : ℕ) → i < 16 → row state.jobs i ≤ 16 }
    ensures { words.new ≡ sets words.old 92 (machine_words state) }
{
    put_machine(
        words,
        state.clock,
        &state.jobs,
        &state.released,
        &state.last,
        &state.remaining,
        &state.release,
    );
}

fn put_state(words: &mut [u32; 653], state: State)
    requires { (state.plan.cores ≤ 8) × (state.plan.tasks ≤ 16) × ((i : ℕ) → i < 16 → row state.jobs i ≤ 16) }
    ensures { words.new ≡ words_of state }
{
    put_plan(words, state.plan);
    put_rest(words, state);
}

fn opened(table: &[u8], state: &mut [u32; 653]) -> Result<u64, Refusal>
    ensures { (told_number result ≡ open_number table.now) × (state.new ≡ open_leaves table.now state.old) }
{
    let judgement = judge(table);
    judgement.answer?;
    let plan = judgement.plan;
    let opened = open(plan);
    put_state(state, opened.state);
    Ok(0)
}

// Opens the engine on a show table: 0 and the opened state of its plan, or what its judgement refuses.
#[unsafe(no_mangle)]
pub extern "C" fn dahomike_engine_open(table: &[u8], state: &mut [u32; 653]) -> u64
    ensures { (result ≡ open_number table.now) × (state.new ≡ open_leaves table.now state.old) }
{
    answer(opened(table, state))
}

fn released(state: &mut [u32; 653], task: u32, demand: u32) -> Result<u64, Refusal>
    ensures { (told_number result ≡ release_number state.old task demand) × (state.new ≡ release_leaves state.old task demand) }
{
    fitting(state)?;
    let mut after = read(state);
    release_lent(&mut after, task as usize, demand)?;
    put_rest(state, after);
    Ok(0)
}

// Hands the engine a release of a loop with its demand: 0 and the state with one job more, or the first of 18 to 23.
#[unsafe(no_mangle)]
pub extern "C" fn dahomike_engine_release(state: &mut [u32; 653], task: u32, demand: u32) -> u64
    ensures { (result ≡ release_number state.old task demand) × (state.new ≡ release_leaves state.old task demand) }
{
    answer(released(state, task, demand))
}

fn stepped(
    state: &mut [u32; 653],
    runs: &mut [u8; 8],
    responses: &mut [u32; 16],
) -> Result<u64, Refusal>
    ensures { (told_number result ≡ step_number state.old)
        × (state.new ≡ step_leaves state.old)
        × (runs.new ≡ runs_leave state.old runs.old)
        × (responses.new ≡ responses_leave state.old responses.old) }
{
    fitting(state)?;
    // Field by field, for speed: by `read`, which copies each place twice, a step of 3 loops took 1.59 times as long as plain Rust, so 1.46.
    let mut after = State {
        plan: plan(state),
        clock: state[92],
        jobs: jobs(state),
        released: flags(state),
        last: numbers(state, 125),
        remaining: numbers(state, 141),
        release: numbers(state, 397),
    };
    let done = step_lent(&mut after);
    let ran = done.runs;
    let finished = done.responses;
    done.answer?;
    put_rest(state, after);
    *runs = ran;
    *responses = finished;
    Ok(0)
}

// Steps the engine by one tick: 0 and the state one tick later, with the loop on each core and who finished, or 18 or 19.
#[unsafe(no_mangle)]
pub extern "C" fn dahomike_engine_step(
    state: &mut [u32; 653],
    runs: &mut [u8; 8],
    responses: &mut [u32; 16],
) -> u64
    ensures { (result ≡ step_number state.old)
        × (state.new ≡ step_leaves state.old)
        × (runs.new ≡ runs_leave state.old runs.old)
        × (responses.new ≡ responses_leave state.old responses.old) }
{
    answer(stepped(state, runs, responses))
}
