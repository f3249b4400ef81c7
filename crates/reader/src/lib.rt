// The reader: its one stage, which finds the three counts or refuses, and the loading of each section's entries, which cannot refuse.
#![tactic(auto)]

ghost use Rattle.std.specs.Prelude.{◌≡◌, ◌+◌, ◌*◌, ◌≤◌, length};
ghost use Rattle.laws.specs.Tab.{tab, cut};
ghost use Rattle.tasks.specs.Content.{no_task};
ghost use Rattle.numbers.specs.Bytes.{byte, number};
ghost use Rattle.codec.specs.Table.{task_size, task_in};
ghost use Rattle.reader.specs.Counted.{Counted};

use codec::entry::{task_at, task_size};
use codec::places::{slack_from, table_length, tasks_from};
use numbers::{count_at, number4};
use tasks::edition::is_unknown;
use tasks::{Refusal, Rule, Task};
use tidy::no_task;

// What the stage finds: the edition and the counts, which give exactly the table's length.
#[derive(Clone, Copy)]
pub struct Counts {
    pub edition: u8,
    pub cores: usize,
    pub tasks: usize,
    pub offers: usize,
}

// The index of 1 and 2.
const INDEX: u16 = 0;

// Refusals 1 and 2, over any bytes.
pub fn read_counts(t: &[u8]) -> Result<Counts, Refusal>
    ensures { Counted t.now result }
{
    if t.len() < 1 {
        return Err(Rule::EditionUnknown.at(INDEX));
    }
    let edition = t[0];
    if is_unknown(edition) {
        return Err(Rule::EditionUnknown.at(INDEX));
    }
    if t.len() < 2 {
        return Err(Rule::LengthWrong.at(INDEX));
    }
    let cores = count_at(t, 1);
    let second = tasks_from(cores);
    if t.len() <= second {
        return Err(Rule::LengthWrong.at(INDEX));
    }
    let tasks = count_at(t, second);
    let third = slack_from(edition, cores, tasks);
    if t.len() <= third {
        return Err(Rule::LengthWrong.at(INDEX));
    }
    let offers = count_at(t, third);
    if t.len() != table_length(edition, cores, tasks, offers) {
        return Err(Rule::LengthWrong.at(INDEX));
    }
    Ok(Counts {
        edition,
        cores,
        tasks,
        offers,
    })
}

// The labels of `cores` entries from the third byte on, zeros in the places past them.
pub fn load_labels(t: &[u8], cores: usize) -> [u8; 8]
    requires { 2 + cores ≤ length t.now }
    ensures { result ≡ tab (cut cores (λ i. byte t.now (2 + i)) 0) 8 }
{
    let mut labels = [0; 8];
    for i in 0..cores.min(8) {
        labels[i] = t[2 + i];
    }
    labels
}

// The tasks of `count` entries from `from` on, zeros in the places past them.
pub fn load_tasks(t: &[u8], from: usize, count: usize, edition: u8) -> [Task; 16]
    requires { from + task_size edition * count ≤ length t.now }
    ensures { result ≡ tab (cut count (λ i. task_in edition t.now (from + task_size edition * i)) no_task) 16 }
{
    let size = task_size(edition);
    let mut tasks = [no_task(); 16];
    for i in 0..count.min(16) {
        tasks[i] = task_at(t, from + size * i, edition);
    }
    tasks
}

// The slack of `count` entries from `from` on, zeros in the places past them.
pub fn load_slack(t: &[u8], from: usize, count: usize) -> [u32; 16]
    requires { from + 4 * count ≤ length t.now }
    ensures { result ≡ tab (cut count (λ i. number 4 t.now (from + 4 * i)) 0) 16 }
{
    let mut slack = [0; 16];
    for i in 0..count.min(16) {
        slack[i] = number4(t, from + 4 * i);
    }
    slack
}
