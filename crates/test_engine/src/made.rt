// States in the making.
ghost use Rattle.std.specs.Prelude.{◌<◌};

use state::State;
use tasks::Plan;
use tidy::no_plan;

// The release and remaining work of a job, right or wrong.
#[derive(Clone, Copy)]
pub struct Job {
    pub release: u32,
    pub work: u32,
}

// A loop holds this one job.
fn hold(state: &mut State, i: usize, job: Job)
    requires { i < 16 }
{
    state.jobs[i] = 1;
    state.released[i] = true;
    state.last[i] = job.release;
    state.release[16 * i] = job.release;
    state.remaining[16 * i] = job.work;
}

// A plan opened, at this tick, with a job of loop 0 and one of loop 1.
pub fn busy(plan: Plan, clock: u32, first: Job, second: Job) -> State {
    let mut state = engine::open(plan).state;
    state.clock = clock;
    hold(&mut state, 0, first);
    hold(&mut state, 1, second);
    state
}

// "A refused … opening hands back a … state of zeros".
pub fn zeros() -> State {
    State {
        plan: no_plan(),
        clock: 0,
        jobs: [0; 16],
        released: [false; 16],
        last: [0; 16],
        remaining: [0; 256],
        release: [0; 256],
    }
}
