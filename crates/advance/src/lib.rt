// A tick and a release, of a state that is sound: for callers that keep soundness by proof. They change the state where it lies.
#![tactic(auto)]

ghost use Rattle.std.specs.Prelude.{◌≡◌, Bool, List, ℕ, ◌+◌, ◌<◌};
ghost use Rattle.tasks.specs.TaskSet.{row};
ghost use Rattle.tasks.specs.declared.Plan.{Plan};
ghost use Rattle.state.specs.Parts.{state_from};
ghost use Rattle.advance.specs.Advanced.{Ready, Ticked, Admitted};

use choice::{choose, keys};
use service::{join, serve};
use state::State;

// What a tick says: the task that ran on each core, or 255 for an idle one, and the responses of the tasks that finished.
#[derive(Clone, Copy)]
pub struct Ran {
    pub runs: [u8; 8],
    pub responses: [u32; 16],
}

// What a state says of taken releases is not looked at: some flags and ticks have to make it a sound one, not its own.
pub fn tick(state: &mut State) -> Ran
    requires { ((released : List Bool) × (last : List ℕ)
        × Ready (state_from state.old.plan state.old.clock state.old.jobs released last state.old.remaining state.old.release))
        × (state.old.clock < 4000000000) }
    ensures ticked { (released : List Bool) (last : List ℕ)
        → Ready (state_from state.old.plan state.old.clock state.old.jobs released last state.old.remaining state.old.release)
        → Ticked (state_from state.old.plan state.old.clock state.old.jobs released last state.old.remaining state.old.release)
        state.new.jobs state.new.remaining state.new.release result.runs result.responses }
    ensures rest { state.new
        ≡ state_from state.old.plan (state.old.clock + 1) state.new.jobs state.old.released state.old.last state.new.remaining state.new.release }
{
    let mut left = keys(state);
    let runs = choose(&mut left, state.plan.cores, state.plan.tasks);
    let mut responses = [0u32; 16];
    let finish = state.clock + 1;
    serve(state, finish, &left, &mut responses);
    state.clock = finish;
    Ran { runs, responses }
}

// "A taken release adds one job, released at the clock, with its demand as remaining work": under every plan with which the state is sound, since
// the plan is not looked at.
pub fn admit(state: &mut State, task: usize, demand: u32)
    requires { (task < 16) × (row state.old.jobs task < 16) }
    ensures admitted { (plan : Plan)
        → Ready (state_from plan state.old.clock state.old.jobs state.old.released state.old.last state.old.remaining state.old.release)
        → Admitted task demand
        (state_from plan state.old.clock state.old.jobs state.old.released state.old.last state.old.remaining state.old.release)
        state.new.jobs state.new.released state.new.last state.new.remaining state.new.release }
    ensures rest { (state.new.plan ≡ state.old.plan) × (state.new.clock ≡ state.old.clock) }
{
    join(state, task, demand);
}
