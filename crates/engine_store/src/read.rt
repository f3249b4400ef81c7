// The state that lent words say.
ghost use Rattle.std.specs.Prelude.{◌≡◌, true, ◌+◌, ◌*◌, ◌≤◌, leb, eqb};
ghost use Rattle.laws.specs.Tab.{tab};
ghost use Rattle.tasks.specs.TaskSet.{row};
ghost use Rattle.state.specs.SoundState.{all_of};
ghost use Rattle.engine_words.specs.Words.{part, fits, task_in, plan_in, fields_in};

use state::State;
use tasks::{Plan, Task};
use tidy::no_task;

// Whether `count` words from `at` on are at most `high`.
fn at_most(words: &[u32; 653], at: usize, count: usize, high: u32) -> bool
    requires { at + count ≤ 653 }
    ensures { result ≡ all_of (λ i. leb (row words.now (at + i)) high) count }
{
    for i in 0..count {
        if high < words[at + i] {
            return false;
        }
    }
    true
}

// "every word in the range of its field"
pub fn fit(words: &[u32; 653]) -> bool
    ensures { result ≡ fits words.now }
{
    words[0] <= 255 && words[1] <= 1 && at_most(words, 4, 8, 255) && at_most(words, 109, 16, 1)
}

fn labels(words: &[u32; 653]) -> [u8; 8]
    requires { fits words.now ≡ true }
    ensures { result ≡ part words.now 4 8 }
{
    let mut labels = [0u8; 8];
    for i in 0..8 {
        labels[i] = words[4 + i] as u8;
    }
    labels
}

fn tasks(words: &[u32; 653]) -> [Task; 16]
    ensures { result ≡ tab (λ i. task_in words.now (12 + 4 * i)) 16 }
{
    let mut task = [no_task(); 16];
    for i in 0..16 {
        let at = 12 + 4 * i;
        task[i] = Task {
            separation: words[at],
            budget: words[at + 1],
            offset: words[at + 2],
            deadline: words[at + 3],
        };
    }
    task
}

// The `N` words from `at` on.
pub fn numbers<const N: usize>(words: &[u32; 653], at: usize) -> [u32; N]
    requires { at + N ≤ 653 }
    ensures { result ≡ part words.now at N }
{
    let mut numbers = [0u32; N];
    numbers.copy_from_slice(&words[at..at + N]);
    numbers
}

pub fn jobs(words: &[u32; 653]) -> [usize; 16]
    ensures { result ≡ part words.now 93 16 }
{
    let mut jobs = [0usize; 16];
    for i in 0..16 {
        jobs[i] = words[93 + i] as usize;
    }
    jobs
}

pub fn flags(words: &[u32; 653]) -> [bool; 16]
    ensures { result ≡ tab (λ i. eqb (row words.now (109 + i)) 1) 16 }
{
    let mut flags = [false; 16];
    for i in 0..16 {
        flags[i] = words[109 + i] == 1;
    }
    flags
}

pub fn plan(words: &[u32; 653]) -> Plan
    requires { fits words.now ≡ true }
    ensures { result ≡ plan_in words.now }
{
    Plan {
        edition: words[0] as u8,
        offered: words[1] == 1,
        cores: words[2] as usize,
        tasks: words[3] as usize,
        labels: labels(words),
        task: tasks(words),
        slack: numbers(words, 76),
    }
}

pub fn read(words: &[u32; 653]) -> State
    requires { fits words.now ≡ true }
    ensures { result ≡ fields_in words.now }
{
    State {
        plan: plan(words),
        clock: words[92],
        jobs: jobs(words),
        released: flags(words),
        last: numbers(words, 125),
        remaining: numbers(words, 141),
        release: numbers(words, 397),
    }
}
