// Whether a release of a task of the table is taken: 21, 22 and 23, for the engine's release and for a log run's entries.
#![tactic(auto)]

ghost use Rattle.std.specs.Prelude.{◌≡◌};
ghost use Rattle.machine.specs.Machine.{within};
ghost use Rattle.state.specs.State.{last_of};
ghost use Rattle.state.specs.CallLaws.{admission};

use tasks::{Refusal, Rule, limits};

// "The loop's last taken release is less than T ticks ago."
fn too_soon(separation: u32, clock: u32, flag: bool, last: u32) -> bool
    ensures { result ≡ within separation clock (last_of flag last) }
{
    if !flag {
        return false;
    }
    (clock as u64) < last as u64 + separation as u64
}

// 21, 22 and 23, for a task of the table.
pub fn admission_test(
    separation: u32,
    budget: u32,
    clock: u32,
    demand: u32,
    jobs: usize,
    flag: bool,
    last: u32,
) -> Result<(), Refusal>
    ensures { result ≡ admission separation budget clock demand jobs flag last }
{
    if demand < 1 {
        return Err(Rule::DemandOutside.at(0));
    }
    if budget < demand {
        return Err(Rule::DemandOutside.at(0));
    }
    if too_soon(separation, clock, flag, last) {
        return Err(Rule::ReleaseTooSoon.at(0));
    }
    if limits::JOBS_HIGH <= jobs {
        return Err(Rule::NoPlaceFree.at(0));
    }
    Ok(())
}
