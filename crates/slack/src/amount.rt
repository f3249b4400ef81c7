// The amount A of a slack, and what it needs; and the names to begin with.
ghost use Rattle.std.specs.Prelude.{List, ℕ, ◌<◌, ◌≤◌};
ghost use Rattle.tasks.specs.TaskSet.{TaskSet, row};
ghost use Rattle.largest.specs.Chosen.{Arranged};
ghost use Rattle.slack.specs.Arrays.{Needs};
ghost use Rattle.slack.specs.Loads.{LoadOf};
ghost use Rattle.slack.specs.Weights.{weight_row, Few, Weighed, Amounts};

use largest::choose;

// What A of a slack is worked out from, of a task set with more loops than cores.
#[derive(Clone, Copy)]
pub struct Load<'a> {
    pub share: &'a [u64; 16],
    pub offset: &'a [u32; 16],
    pub multiple: u64,
    pub surplus: u64,
    pub cores: usize,
    pub tasks: usize,
}

// Names to begin with: the tasks in their own order.
pub fn first_names() -> [u8; 16]
    ensures { (n : ℕ) → n ≤ 16 → Arranged result n }
{
    [0, 1, 2, 3, 4, 5, 6, 7, 8, 9, 10, 11, 12, 13, 14, 15]
}

impl Load<'_> {
    // Every weight: share × (x + Y). The loop has at most 16 turns whatever `tasks` is, and the compiler writes them out: each weight then goes
    // straight to the caller's array. A loop up to `tasks` fills an array of its own, which is copied in every round of a search.
    fn weigh(&self, slack: &[u32; 16]) -> [u64; 16]
        requires { Few self.now.share.now self.now.tasks }
        ensures { Weighed (weight_row self.now.share.now self.now.offset.now slack.now) self.now.tasks result }
    {
        let mut weight = [0u64; 16];
        for i in 0..16 {
            if i == self.tasks {
                break;
            }
            weight[i] = self.share[i] * (u64::from(slack[i]) + u64::from(self.offset[i]));
        }
        weight
    }

    // "A = the sum of the m − 1 largest weights, plus all n surpluses". The names of the counted tasks are kept from one slack to the next.
    pub fn amount(&self, slack: &[u32; 16], names: &mut [u8; 16], many: usize) -> u64
        requires { Few self.now.share.now self.now.tasks × (self.now.surplus < 1000000000000000000) × Arranged names.old self.now.tasks × (many ≤ self.now.tasks) }
        ensures { Amounts (weight_row self.now.share.now self.now.offset.now slack.now) many self.now.tasks self.now.surplus names.new result }
    {
        let weight = self.weigh(slack);
        choose(&weight, names, many, self.tasks) + self.surplus
    }

    // A divided by H, rounded up: the number by which a search raises the slack.
    pub fn needed(&self, slack: &[u32; 16], names: &mut [u8; 16]) -> u32
        requires { ((s : TaskSet) × (b : List ℕ) × LoadOf s self.now b) × Arranged names.old self.now.tasks × ((i : ℕ) → i < self.now.tasks → row slack.now i ≤ 1600000) }
        ensures { ((s : TaskSet) (b : List ℕ) → LoadOf s self.now b → Needs s (row slack.now) names.new result) × Arranged names.new self.now.tasks }
    {
        let whole = self.amount(slack, names, self.cores - 1);
        // Rounded up by hand: with `div_ceil` the law of H's limit in specs/StageLaws, which may not change, would have no use left.
        ((whole + (self.multiple - 1)) / self.multiple) as u32
    }
}
