// The slack: offered slack tested by document 01's inequality, and slack found by raising zeros until nothing changes.
ghost use Rattle.std.specs.Prelude.{◌≡◌, not, ◌+◌, ◌*◌, ◌-◌, ◌/◌, ◌%◌, ◌<◌, ◌≤◌, ltb, eqb, length};
ghost use Rattle.laws.specs.First.{first};
ghost use Rattle.laws.specs.Tab.{tab, cut};
ghost use Rattle.tasks.specs.TaskSet.{TaskSet, row, found};
ghost use Rattle.largest.specs.Chosen.{Arranged};
ghost use Rattle.slack.specs.Arrays.{uncovered, lifted, upto, Had};
ghost use Rattle.slack.specs.Loads.{LoadOf};

use crate::amount::Load;

impl Load<'_> {
    // The lowest task whose m × H × x + H × C is below the amount, or the number of tasks where there is none.
    pub fn first_uncovered(&self, slack: &[u32; 16], budget: &[u32; 16], amount: u64) -> usize
        requires { (self.now.tasks ≤ 16) × (self.now.multiple ≤ 1000000) × (self.now.cores ≤ 8) }
        ensures { result ≡ first (uncovered amount self.now.multiple self.now.cores budget.now slack.now) self.now.tasks }
    {
        for i in 0..self.tasks {
            let cover = self.cores as u64 * self.multiple * u64::from(slack[i])
                + self.multiple * u64::from(budget[i]);
            if cover < amount {
                return i;
            }
        }
        self.tasks
    }
}

// Each budget divided by the number of cores.
pub fn quotients(budget: &[u32; 16], cores: u32, tasks: usize) -> [u32; 16]
    requires { (tasks ≤ 16) × (1 ≤ cores) }
    ensures { result ≡ tab (cut tasks (λ i. row budget.now i / cores) 0) 16 }
{
    let mut quotient = [0u32; 16];
    for i in 0..tasks {
        quotient[i] = budget[i] / cores;
    }
    quotient
}

// What those divisions leave.
pub fn remainders(budget: &[u32; 16], cores: u32, tasks: usize) -> [u32; 16]
    requires { (tasks ≤ 16) × (1 ≤ cores) }
    ensures { result ≡ tab (cut tasks (λ i. row budget.now i % cores) 0) 16 }
{
    let mut rest = [0u32; 16];
    for i in 0..tasks {
        rest[i] = budget[i] % cores;
    }
    rest
}

// The least slack that a task of this budget needs, without a division: `whole` and `over` are what is needed, divided by the number of
// cores, and so are `quotient` and `rest` of the budget.
fn lift(whole: u32, over: u32, quotient: u32, rest: u32) -> u32
    requires { whole < 4294967295 }
    ensures { result ≡ lifted whole over quotient rest }
{
    (whole + u32::from(rest < over)).saturating_sub(quotient)
}

// Each budget divided by the number of cores, and what that leaves.
#[derive(Clone, Copy)]
pub struct Divided {
    pub quotient: [u32; 16],
    pub rest: [u32; 16],
}

impl Divided {
    pub fn new(budget: &[u32; 16], cores: u32, tasks: usize) -> Divided
        requires { (tasks ≤ 16) × (1 ≤ cores) }
        ensures { (result.quotient ≡ tab (cut tasks (λ i. row budget.now i / cores) 0) 16) × (result.rest ≡ tab (cut tasks (λ i. row budget.now i % cores) 0) 16) }
    {
        Divided {
            quotient: quotients(budget, cores, tasks),
            rest: remainders(budget, cores, tasks),
        }
    }

    // Every task's slack set to the least that it needs; whether one changed.
    pub fn raise(&self, slack: &mut [u32; 16], whole: u32, over: u32, tasks: usize) -> bool
        requires { (length slack.old ≡ 16) × (tasks ≤ 16) × (whole < 4294967295) }
        ensures { (slack.new ≡ tab (upto tasks (λ k. lifted whole over (row self.now.quotient k) (row self.now.rest k)) (row slack.old)) 16) × (result ≡ ltb (first (λ k. not (eqb (row slack.old k) (lifted whole over (row self.now.quotient k) (row self.now.rest k)))) tasks) tasks) }
    {
        let mut changed = false;
        for i in 0..tasks {
            let old = slack[i];
            let new = lift(whole, over, self.quotient[i], self.rest[i]);
            slack[i] = new;
            if new != old {
                changed = true;
            }
        }
        changed
    }
}

impl Load<'_> {
    // "starting at zeros, the vector is raised until nothing changes". The tasks counted at the found slack stand first in `names`.
    pub fn search(&self, budget: &[u32; 16], names: &mut [u8; 16]) -> [u32; 16]
        requires { ((s : TaskSet) × LoadOf s self.now budget.now) × Arranged names.old self.now.tasks }
        ensures { (s : TaskSet) → LoadOf s self.now budget.now → Had s (row (found s)) result names.new }
    {
        let divisor = self.cores as u32;
        let divided = Divided::new(budget, divisor, self.tasks);
        let mut slack = [0u32; 16];
        loop {
            let need = self.needed(&slack, names);
            if !divided.raise(&mut slack, need / divisor, need % divisor, self.tasks) {
                break slack;
            }
        }
    }
}
