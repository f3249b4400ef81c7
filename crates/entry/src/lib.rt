// One entry of a log: up to its tick, and its release handed over.
#![tactic(auto)]

ghost use Rattle.std.specs.Prelude.{◌≡◌, List, ℕ};
ghost use Rattle.std.specs.Int.{from_bool};
ghost use Rattle.tasks.specs.declared.Plan.{Plan};
ghost use Rattle.history.specs.Log.{Entry};
ghost use Rattle.running.specs.HandLaws.{Handing, Handed};
ghost use Rattle.running.specs.EnterCode.{Entering, Enters};
ghost use Rattle.onward.specs.Arrays.{arrays_of};
ghost use Rattle.entry.specs.Start.{at_start};

use admission::admission_test;
use choice::head_key;
use heads::Heads;
use logs::read::{Release, release_at};
use logs::report::put_refused;
use onward::{Pending, Setup};
use tasks::Rule;

// A log run: its clock and pending jobs, and whether each task has had a release taken, and when the last one was.
#[derive(Drop)]
pub struct Run {
    pub pending: Pending,
    pub released: [bool; 16],
    pub last: [u32; 16],
}

impl Run {
    // Before the first entry.
    pub fn new() -> Run
        ensures { result ≡ at_start }
    {
        Run {
            pending: Pending {
                clock: 0,
                jobs: [0; 16],
                owners: [0; 256],
                heads: Heads {
                    key: [0; 16],
                    left: [0; 16],
                    count: 0,
                },
            },
            released: [false; 16],
            last: [0; 16],
        }
    }

    // Hands over entry `e`'s release at its tick, and answers whether it is taken. "There 17, 20, 21, 22 and 23, in this order, refuse one
    // entry, which gets its 8 bytes with kind 2, and the run goes on".
    fn hand(&mut self, e: usize, release: &Release, on: &Setup, out: &mut [u8]) -> bool
        requires { (p : Plan) × ((l : List Entry) × ((out₀ : List ℕ)
            × Handing p l out₀ e release.now.tick release.now.task release.now.demand
            on.now.tasks on.now.columns.separation on.now.columns.budget on.now.columns.offset
            (arrays_of self.old.pending out.old) self.old.released self.old.last)) }
        ensures { (self.new.pending.clock ≡ self.old.pending.clock)
            × Handed e release.now.tick release.now.task release.now.demand
            on.now.tasks on.now.columns.separation on.now.columns.budget on.now.columns.offset
            (arrays_of self.old.pending out.old) self.old.released self.old.last (from_bool result)
            (arrays_of self.new.pending out.new) self.new.released self.new.last }
    {
        let task = release.task;
        if on.tasks <= task {
            put_refused(out, e, Rule::TaskNotInTable.number());
            return false;
        }
        prove!(task < 16);
        let held = self.pending.jobs[task];
        let test = admission_test(
            on.columns.separation[task],
            on.columns.budget[task],
            release.tick,
            release.demand,
            held,
            self.released[task],
            self.last[task],
        );
        if let Err(refusal) = test {
            put_refused(out, e, refusal.number);
            return false;
        }
        prove!(held < 16);
        self.pending.owners[16 * task + held] = e as u32;
        self.pending.jobs[task] = held + 1;
        self.released[task] = true;
        self.last[task] = release.tick;
        if held == 0 {
            self.pending.heads.insert(
                head_key(release.tick, on.columns.offset[task], task),
                release.demand,
            );
        }
        true
    }

    // Enters entry `e`, and answers whether it is taken: one that goes back is refused 17 and handed to no call; for any other the run goes on to
    // its tick, and hands over its release.
    pub fn enter(&mut self, e: usize, on: &Setup, out: &mut [u8]) -> bool
        requires { (p : Plan) × ((out₀ : List ℕ)
            × Entering p out₀ on.now.log.now e self.old.pending.clock on.now.cores
            on.now.tasks on.now.columns.separation on.now.columns.budget on.now.columns.offset
            (arrays_of self.old.pending out.old) self.old.released self.old.last) }
        ensures { Enters on.now.log.now e self.old.pending.clock on.now.cores
            on.now.tasks on.now.columns.separation on.now.columns.budget on.now.columns.offset
            (arrays_of self.old.pending out.old) self.old.released self.old.last self.new.pending.clock (from_bool result)
            (arrays_of self.new.pending out.new) self.new.released self.new.last }
    {
        let release = release_at(on.log, e);
        if release.tick < self.pending.clock {
            put_refused(out, e, Rule::TickGoesBack.number());
            false
        } else {
            self.pending.advance(release.tick, on, out);
            self.hand(e, &release, on, out)
        }
    }
}
