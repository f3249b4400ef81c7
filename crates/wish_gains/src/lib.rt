// What A gains as a wish sheet's slack rises, and how far it has to rise at least.
#![tactic(auto)]

ghost use Rattle.std.specs.Prelude.{◌≡◌, List, [], ℕ, ◌+◌, ◌*◌, ◌<◌, ◌≤◌, length, take};
ghost use Rattle.tasks.specs.TaskSet.{row};
ghost use Rattle.wish_gains.specs.Gains.{Gain, Gains};

// No number of a solution is this large.
const NEVER: u64 = 1_000_000_000_000_000_000;

// The least number from `start` on, in steps of the number of cores, at which A could be covered: A is `whole` at `start` and gains at least
// `slope` with each step, and what covers it gains m × H.
pub fn reach(whole: u64, slope: u64, multiple: u64, cores: u64, start: u64) -> u64
    requires { (whole ≤ 40000000000000000) × (slope ≤ cores * multiple) × (multiple ≤ 1000000) × (cores ≤ 8) × (start ≤ 12000007) }
    ensures { (start ≤ result) × ((j : ℕ) → whole + j * slope ≤ multiple * (start + cores * j) → result ≤ start + cores * j) }
{
    let held = multiple * start;
    if whole <= held {
        return start;
    }
    let left = cores * multiple - slope;
    if left == 0 {
        return NEVER;
    }
    start + cores * (whole - held).div_ceil(left)
}

// A task's share where its slack rises and its offset is cut, so that its surplus rises with it.
fn cut_gain(share: u64, separation: u32, room: u32, slack: u32) -> u64
    ensures { Gain share separation room slack result }
{
    if 0 < slack && room.saturating_sub(slack) <= separation {
        share
    } else {
        0
    }
}

// That of every task.
pub fn cut_gains(
    share: &[u64; 16],
    separation: &[u32; 16],
    room: &[u32; 16],
    slack: &[u32; 16],
    tasks: usize,
) -> [u64; 16]
    requires { tasks ≤ 16 }
    ensures { Gains share.now separation.now room.now slack.now [] tasks result }
{
    let mut gain = [0u64; 16];
    for i in 0..tasks {
        gain[i] = cut_gain(share[i], separation[i], room[i], slack[i]);
    }
    gain
}

// A counted task's share where its slack rises: its weight rises with it.
fn counted_gain(share: u64, slack: u32) -> u64
    ensures { Gain share 0 0 slack result }
{
    if slack == 0 { 0 } else { share }
}

// The gains with those of the first names. Arrays one by one: the struct of a sheet is above this crate, in wish_search, with its methods.
pub fn count_gains(
    gain: &mut [u64; 16],
    share: &[u64; 16],
    slack: &[u32; 16],
    names: &[u8; 16],
    many: usize,
    tasks: usize,
)
    requires { (many ≤ tasks) × (tasks ≤ 16) × ((a : ℕ) → a < tasks → row names.now a < tasks) × (tasks ≤ length names.now) × (length gain.old ≡ 16) }
    ensures { (separation room : List ℕ) → Gains share.now separation room slack.now [] tasks gain.old → Gains share.now separation room slack.now (take many names.now) tasks gain.new }
{
    for name in &names[..many] {
        let i = *name as usize;
        gain[i] = counted_gain(share[i], slack[i]);
    }
}
