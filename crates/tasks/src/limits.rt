// Document 01's limits, by name. The largest H is `multiple::MULTIPLE_HIGH`.
// The least and the largest number of cores.
pub const CORES_LOW: usize = 2;

pub const CORES_HIGH: usize = 8;

// The largest hardware label.
pub const LABEL_HIGH: u8 = 63;

// The largest number of tasks, and of a task's unfinished jobs.
pub const TASKS_HIGH: usize = 16;

pub const JOBS_HIGH: usize = 16;

// The largest separation, in ticks.
pub const SEPARATION_HIGH: u32 = 100_000;

// The largest bound: 16 times the largest separation.
pub const BOUND_HIGH: u32 = 1_600_000;

// The largest deadline.
pub const DEADLINE_HIGH: u32 = 1_600_000;

// The largest tick of a log's entry.
pub const TICK_HIGH: u32 = 1_000_000_000;

// The last clock.
pub const CLOCK_END: u32 = 4_000_000_000;
