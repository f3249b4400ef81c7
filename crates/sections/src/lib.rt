// A plan's bytes, section by section. Document 01, "Bytes of a show table".
#![tactic(auto)]

ghost use Rattle.std.specs.Prelude.{◌≡◌, [], ◌∷◌, ◌++◌, ◌+◌, ◌*◌, ◌≤◌, length, drop};
ghost use Rattle.std.proofs.lemmas.List.Edits.{sets};
ghost use Rattle.tasks.specs.TaskSet.{row};
ghost use Rattle.tasks.specs.Content.{content_of, task_of};
ghost use Rattle.numbers.specs.Bytes.{digits, entries};
ghost use Rattle.codec.specs.Table.{task_size, task_bytes, bytes_of};

use analysis::slack_count;
use codec::entry::{put_task, task_size};
use codec::places::{slack_from, table_length, tasks_from};
use numbers::put4;
use tasks::{Plan, Task};

// The cores' section: the count at `at`, and then the labels.
fn put_labels(out: &mut [u8], at: usize, labels: &[u8; 8], count: usize)
    requires { (count ≤ 8) × (at + 1 + count ≤ length out.old) }
    ensures { out.new ≡ sets out.old at (count ∷ entries (λ i. row labels.now i ∷ []) count) }
{
    out[at] = count as u8;
    let from = at + 1;
    out[from..from + count].copy_from_slice(&labels[..count]);
}

// The loops' section.
fn put_tasks(out: &mut [u8], at: usize, task: [Task; 16], count: usize, edition: u8)
    requires { (count ≤ 16) × (at + 1 + task_size edition * count ≤ length out.old) }
    ensures { out.new ≡ sets out.old at (count ∷ entries (λ i. task_bytes edition (task_of task i)) count) }
{
    out[at] = count as u8;
    let from = at + 1;
    let size = task_size(edition);
    for i in 0..count {
        put_task(out, from + size * i, task[i], edition);
    }
}

// The slack's section.
fn put_slack(out: &mut [u8], at: usize, slack: &[u32; 16], count: usize)
    requires { (count ≤ 16) × (at + 1 + 4 * count ≤ length out.old) }
    ensures { out.new ≡ sets out.old at (count ∷ entries (λ i. digits 4 (row slack.now i)) count) }
{
    out[at] = count as u8;
    let from = at + 1;
    for i in 0..count {
        put4(out, from + 4 * i, slack[i]);
    }
}

// The bytes of a plan from the buffer's beginning on; later bytes stay. How many there are comes back.
pub fn put_plan(out: &mut [u8], plan: Plan) -> usize
    requires { (plan.cores ≤ 8) × (plan.tasks ≤ 16) × (length (bytes_of (content_of plan)) ≤ length out.old) }
    ensures { (result ≡ length (bytes_of (content_of plan))) × (out.new ≡ bytes_of (content_of plan) ++ drop (length (bytes_of (content_of plan))) out.old) }
{
    let edition = plan.edition;
    let cores = plan.cores;
    let tasks = plan.tasks;
    let count = slack_count(plan.offered, tasks);
    out[0] = edition;
    put_labels(out, 1, &plan.labels, cores);
    put_tasks(out, tasks_from(cores), plan.task, tasks, edition);
    put_slack(out, slack_from(edition, cores, tasks), &plan.slack, count);
    table_length(edition, cores, tasks, count)
}
