// Many rounds of the search in one. While the counted tasks and the offsets that are cut stay the same, A rises evenly with the slack, and it
// never rises less; so what A lacks at one slack says how far every solution's number is away.
ghost use Rattle.std.specs.Prelude.{List, ℕ, ◌+◌, ◌-◌, ◌/◌, ◌%◌, ◌≤◌};
ghost use Rattle.tasks.specs.TaskSet.{TaskSet};
ghost use Rattle.largest.specs.Chosen.{Arranged};
ghost use Rattle.wish_search.specs.Sheets.{SheetForWith};
ghost use Rattle.wish_search.specs.Leaps.{Far, Ahead};

use crate::search::Sheet;
use slack::amount::Load;
use slack::rates::{surplus_of, total};
use slack::vector::Divided;
use wish_gains::{count_gains, cut_gains, reach};
use wish_offsets::offsets;

// No search goes further: the largest number that a search is told of.
const FURTHEST: u64 = 12_000_000;

impl Sheet<'_> {
    // The least number from `start` on, in steps of the number of cores, that a solution's A could need.
    fn far(&self, divided: &Divided, names: &mut [u8; 16], start: u32) -> u64
        requires { ((s : TaskSet) × (b : List ℕ) × SheetForWith s self.now b divided.now) × Arranged names.old self.now.tasks × (start ≤ 12000007) }
        ensures { ((s : TaskSet) (b : List ℕ) → SheetForWith s self.now b divided.now → Far s start result) × Arranged names.new self.now.tasks × (start ≤ result) }
    {
        let divisor = self.cores as u32;
        let many = self.cores - 1;
        let tasks = self.tasks;
        let mut slack = [0u32; 16];
        let _raised = divided.raise(&mut slack, start / divisor, start % divisor, tasks);
        let offset = offsets(self.separation, self.room, &slack, tasks);
        let load = Load {
            share: self.share,
            offset: &offset,
            multiple: self.multiple,
            surplus: surplus_of(self.share, self.separation, &offset, tasks),
            cores: self.cores,
            tasks,
        };
        let whole = load.amount(&slack, names, many);
        let mut gain = cut_gains(self.share, self.separation, self.room, &slack, tasks);
        count_gains(&mut gain, self.share, &slack, names, many, tasks);
        let slope = total(&gain, tasks);
        reach(whole, slope, self.multiple, self.cores as u64, start as u64)
    }

    // The least number from `start` on that a solution's A could need.
    pub fn leap(&self, divided: &Divided, names: &mut [u8; 16], start: u32) -> u32
        requires { ((s : TaskSet) × (b : List ℕ) × SheetForWith s self.now b divided.now) × Arranged names.old self.now.tasks × (start ≤ 12000000) }
        ensures { ((s : TaskSet) (b : List ℕ) → SheetForWith s self.now b divided.now → Ahead s start result) × Arranged names.new self.now.tasks × (start ≤ result) × (result ≤ 12000000) }
    {
        let mut best = FURTHEST;
        for from in start..start + self.cores as u32 {
            if best <= u64::from(from) {
                break;
            }
            let to = self.far(divided, names, from);
            best = best.min(to);
        }
        best as u32
    }
}
