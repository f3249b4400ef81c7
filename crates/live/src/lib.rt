// "The live controller lends its state, and one thin call advances it there."
#![tactic(auto)]

ghost use Rattle.std.specs.Prelude.{◌≡◌};
ghost use Rattle.state.specs.Calls.{step_of};

use engine::step;
use state::{State, Stepped};

// Steps the state where it lies; a refused step leaves it as it is.
pub fn step_in_place(state: &mut State) -> Stepped
    ensures { (result ≡ step_of state.old) × (state.new ≡ (step_of state.old).state) }
{
    let stepped = step(*state);
    *state = stepped.state;
    stepped
}
