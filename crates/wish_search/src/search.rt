// The search for a wish sheet's slack: raised from zeros, each time with the largest offsets that it leaves.
ghost use Rattle.std.specs.Prelude.{List, ℕ, ◌-◌, ◌/◌, ◌%◌, ◌<◌, ◌≤◌};
ghost use Rattle.tasks.specs.TaskSet.{TaskSet, row};
ghost use Rattle.largest.specs.Chosen.{Arranged};
ghost use Rattle.slack.specs.Arrays.{Needs};
ghost use Rattle.wishes.specs.Wish.{at_slack};
ghost use Rattle.wish_search.specs.SheetArrays.{Onward, Ended};
ghost use Rattle.wish_search.specs.Sheets.{SheetFor, SheetForWith};

use slack::amount::Load;
use slack::rates::surplus_of;
use slack::vector::Divided;
use wish_offsets::{first_past, offsets};

// What the search reads of a sheet, beside its budgets.
#[derive(Clone, Copy)]
pub struct Sheet<'a> {
    pub share: &'a [u64; 16],
    pub separation: &'a [u32; 16],
    pub room: &'a [u32; 16],
    pub multiple: u64,
    pub cores: usize,
    pub tasks: usize,
}

// So many rounds are made one by one, since a leap costs up to as many as there are cores. A sheet can need some 800,000.
const ROUNDS: u32 = 16;

impl Sheet<'_> {
    // What A needs at a slack.
    fn needed_at(&self, slack: &[u32; 16], names: &mut [u8; 16]) -> u32
        requires { ((s : TaskSet) × (b : List ℕ) × SheetFor s self.now b) × Arranged names.old self.now.tasks × ((i : ℕ) → i < self.now.tasks → row slack.now i ≤ 1600000) }
        ensures { ((s : TaskSet) (b : List ℕ) → SheetFor s self.now b → Needs (at_slack s (row slack.now)) (row slack.now) names.new result) × Arranged names.new self.now.tasks }
    {
        let offset = offsets(self.separation, self.room, slack, self.tasks);
        let load = Load {
            share: self.share,
            offset: &offset,
            multiple: self.multiple,
            surplus: surplus_of(self.share, self.separation, &offset, self.tasks),
            cores: self.cores,
            tasks: self.tasks,
        };
        load.needed(slack, names)
    }

    // The number by which the slack is raised next: what A needs or, once the rounds are used up, the least that a solution's A could need.
    fn next(&self, divided: &Divided, slack: &[u32; 16], names: &mut [u8; 16], rounds: u32) -> u32
        requires { ((s : TaskSet) × (b : List ℕ) × SheetForWith s self.now b divided.now) × Arranged names.old self.now.tasks × ((i : ℕ) → i < self.now.tasks → row slack.now i ≤ 1600000) }
        ensures { ((s : TaskSet) (b : List ℕ) → SheetForWith s self.now b divided.now → Onward s (row slack.now) result) × Arranged names.new self.now.tasks × (result ≤ 12000000) }
    {
        let least = self.needed_at(slack, names);
        if 0 < rounds {
            return least;
        }
        self.leap(divided, names, least)
    }

    // Raised until nothing changes, or until some task's slack is above W − C: then there is no solution.
    pub fn search(&self, budget: &[u32; 16], names: &mut [u8; 16]) -> [u32; 16]
        requires { ((s : TaskSet) × SheetFor s self.now budget.now) × Arranged names.old self.now.tasks }
        ensures { (s : TaskSet) → SheetFor s self.now budget.now → Ended s result }
    {
        let divisor = self.cores as u32;
        let divided = Divided::new(budget, divisor, self.tasks);
        let mut rounds = ROUNDS;
        let mut slack = [0u32; 16];
        loop {
            if first_past(&slack, self.room, self.tasks) < self.tasks {
                break slack;
            }
            let need = self.next(&divided, &slack, names, rounds);
            rounds = rounds.saturating_sub(1);
            if !divided.raise(&mut slack, need / divisor, need % divisor, self.tasks) {
                break slack;
            }
        }
    }
}
