// What a tick does to the state, task by task.
#![tactic(auto)]

ghost use Rattle.std.specs.Prelude.{◌≡◌, ◌-◌, ◌<◌, ◌≤◌};
ghost use Rattle.choice.specs.Pick.{Jobless};
ghost use Rattle.service.specs.Serve.{moved, turns};
ghost use Rattle.tasks.specs.TaskSet.{row};
ghost use Rattle.state.specs.Parts.{state_from};
ghost use Rattle.service.specs.CodeLaws.{Turned, Are, Joined};

use choice::NO_KEY;
use state::State;

// The sixteen places of task `i` moved down by one, "oldest first", with the freed place zero.
pub fn move_down(places: &mut [u32; 256], i: usize)
    requires { i < 16 }
    ensures { places.new ≡ moved i places.old }
{
    let base = 16 * i;
    places.copy_within(base + 1..base + 16, base);
    places[base + 15] = 0;
}

// The turn of task `i` in a tick that ends at clock `finish`, with the key that the choice left it: where it runs, its head has one tick of
// work less; where that was the last, the job is finished and the task's places move down.
fn turn(state: &mut State, i: usize, finish: u32, key: u64, responses: &mut [u32; 16])
    requires { i < 16 }
    ensures turned { Turned finish i key
        state.old.jobs state.old.remaining state.old.release responses.old
        state.new.jobs state.new.remaining state.new.release responses.new }
    ensures rest { state.new ≡ state_from state.old.plan state.old.clock state.new.jobs state.old.released state.old.last state.new.remaining state.new.release }
{
    if state.jobs[i] == 0 {
        return;
    }
    if key != NO_KEY {
        return;
    }
    let work = state.remaining[16 * i];
    if 1 < work {
        state.remaining[16 * i] = work - 1;
        return;
    }
    responses[i] = finish.saturating_sub(state.release[16 * i]);
    move_down(&mut state.remaining, i);
    move_down(&mut state.release, i);
    state.jobs[i] -= 1;
}

// A tick that ends at clock `finish`, for all tasks, with the keys that the choice left. Beyond the table no task has a job, and no turn would
// change anything.
pub fn serve(state: &mut State, finish: u32, keys: &[u64; 16], responses: &mut [u32; 16])
    requires { (state.old.plan.tasks ≤ 16) × Jobless state.old.plan.tasks state.old.jobs }
    ensures turns { Are
        (turns finish keys.now
        (record {
          jobs = state.old.jobs;
          work = state.old.remaining;
          release = state.old.release;
          responses = responses.old;
        })
        16)
        state.new.jobs state.new.remaining state.new.release responses.new }
    ensures rest { state.new ≡ state_from state.old.plan state.old.clock state.new.jobs state.old.released state.old.last state.new.remaining state.new.release }
{
    for i in 0..state.plan.tasks {
        turn(state, i, finish, keys[i], responses);
    }
}

// "A taken release adds one job, released at the clock, with its demand as remaining work": task `i` has a place free.
pub fn join(state: &mut State, i: usize, demand: u32)
    requires { (i < 16) × (row state.old.jobs i < 16) }
    ensures joined { Joined i state.old.clock demand
        state.old.jobs state.old.released state.old.last state.old.remaining state.old.release
        state.new.jobs state.new.released state.new.last state.new.remaining state.new.release }
    ensures rest { (state.new.plan ≡ state.old.plan) × (state.new.clock ≡ state.old.clock) }
{
    let held = state.jobs[i];
    let place = 16 * i + held;
    state.jobs[i] = held + 1;
    state.released[i] = true;
    state.last[i] = state.clock;
    state.remaining[place] = demand;
    state.release[place] = state.clock;
}
