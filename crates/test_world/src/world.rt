// What the lines of a script have made so far.
ghost use Rattle.test_world.specs.Worlds.{BothWithin};

use tasks::Plan;
use test_tables::draft::Draft;
use tidy::no_plan;

// A table and a log in the making, and a plan.
#[derive(Clone, Copy)]
pub struct World {
    pub table: Draft,
    pub log: Draft,
    pub plan: Plan,
}

impl World {
    pub fn new() -> World
        ensures { BothWithin result }
    {
        World {
            table: Draft::new(),
            log: Draft::new(),
            plan: no_plan(),
        }
    }
}
