// The reader of a release log: its count, and its entries one by one.
ghost use Rattle.std.specs.Prelude.{◌≡◌, ◌+◌, ◌*◌, ◌≤◌, ◌<◌, length, ltb};
ghost use Rattle.laws.specs.First.{first};
ghost use Rattle.logs.specs.LogBytes.{entry_count, entry_in};
ghost use Rattle.logs.specs.LogStages.{EntriesRead, Releases};

use numbers::{count_at, number4};
use tasks::{Refusal, Rule, limits};

// An entry: the task released, the tick, and the job's demand.
#[derive(Clone, Copy)]
pub struct Release {
    pub tick: u32,
    pub task: usize,
    pub demand: u32,
}

// The 2-byte count.
fn count(log: &[u8]) -> usize
    requires { 2 ≤ length log.now }
    ensures { (result ≡ entry_count log.now) × (result < 65536) }
{
    count_at(log, 0) + 256 * count_at(log, 1)
}

// The lowest entry whose tick is too large, or `count` where there is none, as the definition `first` has it.
fn first_late(log: &[u8], count: usize) -> usize
    requires { 2 + 9 * count ≤ length log.now }
    ensures { result ≡ first (λ e. ltb 1000000000 (entry_in log.now e).tick) count }
{
    for e in 0..count {
        if limits::TICK_HIGH < number4(log, 2 + 9 * e) {
            return e;
        }
    }
    count
}

// Refusals 14 and 15, over any bytes, and the count, which gives exactly the log's length.
pub fn read_entries(log: &[u8]) -> Result<usize, Refusal>
    ensures { EntriesRead log.now result }
{
    if log.len() < 2 {
        return Err(Rule::LogLengthWrong.at(0));
    }
    let count = count(log);
    if log.len() != 2 + 9 * count {
        return Err(Rule::LogLengthWrong.at(0));
    }
    let late = first_late(log, count);
    if late < count {
        return Err(Rule::LogTickTooLate.at(late as u16));
    }
    Ok(count)
}

// An entry of 9 bytes: tick, task and demand.
pub fn release_at(log: &[u8], e: usize) -> Release
    requires { 2 + 9 * e + 9 ≤ length log.now }
    ensures { Releases log.now e result }
{
    let at = 2 + 9 * e;
    Release {
        tick: number4(log, at),
        task: count_at(log, at + 4),
        demand: number4(log, at + 5),
    }
}
