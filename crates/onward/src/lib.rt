// From one clock to a later one, by leaps: who runs depends only on the heads and their priority points, so as long as no running job finishes
// and nothing is released every tick is the same tick.
#![tactic(auto)]

ghost use Rattle.std.specs.Prelude.{◌≡◌, ◌≤◌, ◌<◌};
ghost use Rattle.running.specs.Leap.{Standing, Ready, Leapt, Advanced};
ghost use Rattle.running.specs.FinishCode.{Finishing, Finished};
ghost use Rattle.running.specs.AllCode.{AllFinishing, AllFinished};
ghost use Rattle.onward.specs.Arrays.{arrays_of};

use choice::head_key;
use fields::columns::Columns;
use heads::{Done, Heads};
use logs::read::release_at;
use logs::report::put_finished;
use service::move_down;

// What stays the same during a log run: the log, and the plan's numbers of cores and of tasks with the tasks' columns.
#[derive(Drop)]
pub struct Setup<'a> {
    pub log: &'a [u8],
    pub cores: usize,
    pub tasks: usize,
    pub columns: Columns,
}

// The clock, and the pending jobs: how many each task has, the entries that released them, sixteen places a task, oldest first, and the heads.
#[derive(Drop)]
pub struct Pending {
    pub clock: u32,
    pub jobs: [usize; 16],
    pub owners: [u32; 256],
    pub heads: Heads,
}

impl Pending {
    // Task `i` finished a job at `clock`: its entry gets its report, and the task's next job, if any, takes its place among the heads.
    fn finish(&mut self, i: usize, clock: u32, on: &Setup, out: &mut [u8])
        requires { Finishing i clock on.now.log.now on.now.columns.offset (arrays_of self.old out.old) }
        ensures { Finished i clock on.now.log.now on.now.columns.offset (arrays_of self.old out.old) (arrays_of self.new out.new) }
    {
        put_finished(out, self.owners[16 * i] as usize, clock);
        move_down(&mut self.owners, i);
        let more = self.jobs[i] - 1;
        self.jobs[i] = more;
        if more == 0 {
            return;
        }
        let next = release_at(on.log, self.owners[16 * i] as usize);
        self.heads
            .insert(head_key(next.tick, on.columns.offset[i], i), next.demand);
    }

    // The tasks of `done` finished a job at `clock`.
    fn finish_all(&mut self, done: &Done, clock: u32, on: &Setup, out: &mut [u8])
        requires { (done.now.count ≤ 16)
            × AllFinishing done.now.tasks done.now.count clock on.now.log.now on.now.columns.offset (arrays_of self.old out.old) }
        ensures { AllFinished done.now.tasks done.now.count clock on.now.log.now on.now.columns.offset
            (arrays_of self.old out.old) done.now.count (arrays_of self.new out.new) }
    {
        for a in 0..done.count {
            self.finish(done.tasks[a], clock, on, out);
        }
    }

    // One leap towards clock `to`: so many ticks as pass until a running job finishes, or until `to`.
    fn leap(&mut self, to: u32, on: &Setup, out: &mut [u8])
        requires { (self.old.clock < to)
            × ((x : Standing) × Ready x on.now.log.now on.now.cores on.now.columns.offset self.old.clock to (arrays_of self.old out.old)) }
        ensures { Leapt on.now.log.now on.now.cores on.now.columns.offset self.old.clock to
            (arrays_of self.old out.old) self.new.clock (arrays_of self.new out.new) }
    {
        let ticks = self
            .heads
            .least(on.cores.min(self.heads.count), to - self.clock);
        let reached = self.clock + ticks;
        let mut done = Done {
            tasks: [0; 16],
            count: 0,
        };
        self.heads.run_heads(&mut done, on.cores, ticks);
        self.finish_all(&done, reached, on, out);
        self.clock = reached;
    }

    // "stepped up to an entry's tick where that is later than its clock"
    pub fn advance(&mut self, to: u32, on: &Setup, out: &mut [u8])
        requires { (self.old.clock ≤ to)
            × ((x : Standing) × Ready x on.now.log.now on.now.cores on.now.columns.offset self.old.clock to (arrays_of self.old out.old)) }
        ensures { (self.new.clock ≡ to)
            × Advanced on.now.log.now on.now.cores on.now.columns.offset self.old.clock to
            (arrays_of self.old out.old) to (arrays_of self.new out.new) }
    {
        while self.clock < to {
            self.leap(to, on, out);
        }
    }
}
