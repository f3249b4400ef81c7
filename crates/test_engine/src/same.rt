// What the cases compare: states, place by place, and the answers of a step.
use state::{State, Stepped};
use test_same_plan::{same_plan, unused_zero};

// Two states without their clocks and table parts.
pub fn same_jobs(a: State, b: State) -> bool {
    a.jobs == b.jobs
        && a.released == b.released
        && a.last == b.last
        && a.release == b.release
        && a.remaining == b.remaining
}

// Two states, field by field and place by place, whose table parts have zeros in their unused places.
pub fn same_state(a: State, b: State) -> bool {
    let plan = a.plan;
    let table = b.plan;
    a.clock == b.clock
        && same_plan(plan, table)
        && unused_zero(plan)
        && unused_zero(table)
        && same_jobs(a, b)
}

// Two answers of a step, the state in them too.
pub fn same_step(a: Stepped, b: Stepped) -> bool {
    a.answer == b.answer
        && a.runs == b.runs
        && a.responses == b.responses
        && same_state(a.state, b.state)
}
