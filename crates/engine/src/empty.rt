// A state with nothing pending.
ghost use Rattle.std.specs.Prelude.{◌≡◌};
ghost use Rattle.machine.specs.Machine.{opened};
ghost use Rattle.state.specs.State.{state_of, zero_state};

use state::State;
use tasks::Plan;
use tidy::no_plan;

// "at tick 0 with nothing pending"
pub fn empty(plan: Plan) -> State
    ensures { result ≡ state_of plan opened }
{
    State {
        plan,
        clock: 0,
        jobs: [0usize; 16],
        released: [false; 16],
        last: [0u32; 16],
        remaining: [0u32; 256],
        release: [0u32; 256],
    }
}

// "A refused … opening hands back a … state of zeros"
pub fn zeros() -> State
    ensures { result ≡ zero_state }
{
    empty(no_plan())
}
