// Whether a state is sound, clause by clause; its table part's test by 1, 3 to 13 and 28 is the analysis's.
#![tactic(auto)]

ghost use Rattle.std.specs.Prelude.{◌≡◌};
ghost use Rattle.state.specs.SoundState.{sound_of};

use analysis::test;
use clauses::{labels_zero, loops, places, tasks_zero};
use state::State;
use tasks::limits;

// "A state is sound if …". The state is lent, not copied.
pub fn sound(state: &State) -> bool
    ensures { result ≡ sound_of state.now }
{
    let Ok(()) = test(state.plan) else {
        return false;
    };
    if !labels_zero(&state.plan) {
        return false;
    }
    if !tasks_zero(&state.plan) {
        return false;
    }
    if limits::CLOCK_END < state.clock {
        return false;
    }
    if !loops(state) {
        return false;
    }
    places(state)
}
