// Tests 9 and 10, and what the slack is worked out from: H, the shares and the surpluses' sum.
ghost use Rattle.std.specs.Prelude.{◌≡◌, ℕ, ◌*◌, ◌/◌, ◌-◌, ◌<◌, ◌≤◌};
ghost use Rattle.laws.specs.Sum.{sum};
ghost use Rattle.laws.specs.Tab.{tab, cut};
ghost use Rattle.tasks.specs.TaskSet.{row};
ghost use Rattle.fields.specs.Columns.{set_from};
ghost use Rattle.slack.specs.Rates.{Ranges, Rated};

use multiple::{MULTIPLE_HIGH, common_multiple};
use tasks::{Refusal, Rule};

// The rates of a task set that meets none of 6 to 10.
#[derive(Clone, Copy)]
pub struct Rates {
    pub multiple: u64,
    pub surplus: u64,
    pub share: [u64; 16],
}

fn shares(separation: &[u32; 16], budget: &[u32; 16], multiple: u64, tasks: usize) -> [u64; 16]
    requires { (tasks ≤ 16) × (multiple ≤ 1000000) × ((i : ℕ) → i < tasks → 1 ≤ row separation.now i) }
    ensures { result ≡ tab (cut tasks (λ i. row budget.now i * multiple / row separation.now i) 0) 16 }
{
    let mut share = [0u64; 16];
    for i in 0..tasks {
        share[i] = u64::from(budget[i]) * multiple / u64::from(separation[i]);
    }
    share
}

pub fn total(share: &[u64; 16], tasks: usize) -> u64
    requires { (tasks ≤ 16) × ((i : ℕ) → i < tasks → row share.now i ≤ 1000000) }
    ensures { result ≡ sum (row share.now) tasks }
{
    let mut all = 0;
    for x in &share[..tasks] {
        all += *x;
    }
    all
}

pub fn surplus_of(
    share: &[u64; 16],
    separation: &[u32; 16],
    offset: &[u32; 16],
    tasks: usize,
) -> u64
    requires { (tasks ≤ 16) × ((i : ℕ) → i < tasks → (row share.now i ≤ 1000000) × (row separation.now i ≤ 100000) × (row offset.now i ≤ row separation.now i)) }
    ensures { result ≡ sum (λ i. row share.now i * (row separation.now i - row offset.now i)) tasks }
{
    let mut all = 0;
    for i in 0..tasks {
        all += share[i] * u64::from(separation[i] - offset[i]);
    }
    all
}

// Tests 9 and 10. Arrays one by one, since the offsets tried for a wish sheet are not those of its columns.
pub fn rate(
    separation: &[u32; 16],
    budget: &[u32; 16],
    offset: &[u32; 16],
    cores: usize,
    tasks: usize,
) -> Result<Rates, Refusal>
    requires { Ranges (set_from cores tasks separation.now budget.now offset.now) }
    ensures { Rated (set_from cores tasks separation.now budget.now offset.now) result }
{
    let multiple = common_multiple(separation, tasks);
    if MULTIPLE_HIGH < multiple {
        return Err(Rule::HyperperiodTooLarge.at(0));
    }
    let share = shares(separation, budget, multiple, tasks);
    let all = total(&share, tasks);
    if (cores as u64) * multiple < all {
        return Err(Rule::SharesTooLarge.at(0));
    }
    let surplus = surplus_of(&share, separation, offset, tasks);
    Ok(Rates {
        multiple,
        surplus,
        share,
    })
}
