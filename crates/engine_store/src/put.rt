// The words of a state, written over lent ones. A step leaves the table part as it is, so the words of the plan and the others are apart.
ghost use Rattle.std.specs.Prelude.{◌≡◌, ℕ, ◌+◌, ◌*◌, ◌≤◌, ◌<◌, get_or, false};
ghost use Rattle.std.proofs.lemmas.List.Edits.{sets};
ghost use Rattle.laws.specs.Tab.{tab};
ghost use Rattle.tasks.specs.TaskSet.{row};
ghost use Rattle.tasks.specs.Content.{task_of, zero_plan};
ghost use Rattle.numbers.specs.Bytes.{entries};
ghost use Rattle.engine_words.specs.Words.{word_of_flag, task_words, plan_words, machine_words};

use tasks::{Plan, Task};

// The loops of labels, jobs and flags differ in how a value becomes a word. One function of them all would take that as a closure, with a contract
// longer than the three of them: that is no plainer. The same holds for the three that read them back.
fn put_labels(words: &mut [u32; 653], labels: &[u8; 8])
    ensures { words.new ≡ sets words.old 4 (tab (row labels.now) 8) }
{
    for i in 0..8 {
        words[4 + i] = u32::from(labels[i]);
    }
}

fn put_task(words: &mut [u32; 653], at: usize, task: Task)
    requires { at + 4 ≤ 653 }
    ensures { words.new ≡ sets words.old at (task_words task) }
{
    words[at] = task.separation;
    words[at + 1] = task.budget;
    words[at + 2] = task.offset;
    words[at + 3] = task.deadline;
}

fn put_tasks(words: &mut [u32; 653], task: [Task; 16])
    ensures { words.new ≡ sets words.old 12 (entries (λ i. task_words (task_of task i)) 16) }
{
    for i in 0..16 {
        put_task(words, 12 + 4 * i, task[i]);
    }
}

// The `N` numbers as they are, from the word `at` on. By a loop: `copy_from_slice` leaves `memmove` in the controller's archive where the compiler
// can't see that the two lie apart, and no other name but `memcpy` and `memset` is needed there from outside.
fn put_numbers<const N: usize>(words: &mut [u32; 653], at: usize, numbers: &[u32; N])
    requires { at + N ≤ 653 }
    ensures { words.new ≡ sets words.old at numbers.now }
{
    for i in 0..N {
        words[at + i] = numbers[i];
    }
}

fn put_jobs(words: &mut [u32; 653], jobs: &[usize; 16])
    requires { (i : ℕ) → i < 16 → row jobs.now i ≤ 16 }
    ensures { words.new ≡ sets words.old 93 (tab (row jobs.now) 16) }
{
    for i in 0..16 {
        words[93 + i] = jobs[i] as u32;
    }
}

fn put_flags(words: &mut [u32; 653], flags: &[bool; 16])
    ensures { words.new ≡ sets words.old 109 (tab (λ i. word_of_flag (get_or flags.now i false)) 16) }
{
    for i in 0..16 {
        words[109 + i] = u32::from(flags[i]);
    }
}

pub fn put_plan(words: &mut [u32; 653], plan: Plan)
    requires { (plan.cores < 4294967296) × (plan.tasks < 4294967296) }
    ensures { words.new ≡ sets words.old 0 (plan_words plan) }
{
    words[0] = u32::from(plan.edition);
    words[1] = u32::from(plan.offered);
    words[2] = plan.cores as u32;
    words[3] = plan.tasks as u32;
    put_labels(words, &plan.labels);
    put_tasks(words, plan.task);
    put_numbers(words, 76, &plan.slack);
}

// The words behind the plan's, which do not depend on it.
pub fn put_machine(
    words: &mut [u32; 653],
    clock: u32,
    jobs: &[usize; 16],
    released: &[bool; 16],
    last: &[u32; 16],
    remaining: &[u32; 256],
    release: &[u32; 256],
)
    requires { (i : ℕ) → i < 16 → row jobs.now i ≤ 16 }
    ensures { words.new
        ≡ sets words.old 92
        (machine_words (record {
          plan = zero_plan;
          clock = clock;
          jobs = jobs.now;
          released = released.now;
          last = last.now;
          remaining = remaining.now;
          release = release.now;
        })) }
{
    words[92] = clock;
    put_jobs(words, jobs);
    put_flags(words, released);
    put_numbers(words, 125, last);
    put_numbers(words, 141, remaining);
    put_numbers(words, 397, release);
}
