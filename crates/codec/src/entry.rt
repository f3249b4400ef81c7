// A task's entry in a table: from its bytes, and to them. Document 01: "entries of 12 bytes: separation T, budget C, priority offset Y, 4
// bytes each"; document 02: "In edition 2 a loop has 16 bytes, the deadline D last".
ghost use Rattle.std.specs.Prelude.{cond, ◌≡◌, ◌+◌, ◌≤◌, length};
ghost use Rattle.std.proofs.lemmas.List.Edits.{sets};
ghost use Rattle.tasks.specs.Content.{has_deadlines};
ghost use Rattle.numbers.specs.Bytes.{number};
ghost use Rattle.codec.specs.Table.{task_size, task_in, plain_bytes, task_bytes};

use numbers::{number4, put4};
use tasks::Task;
use tasks::edition::has_deadlines;

// The bytes of an entry.
pub fn task_size(edition: u8) -> usize
    ensures { result ≡ task_size edition }
{
    if has_deadlines(edition) {
        return 16;
    }
    12
}

fn deadline_at(t: &[u8], at: usize, edition: u8) -> u32
    requires { at + task_size edition ≤ length t.now }
    ensures { result ≡ cond (has_deadlines edition) (number 4 t.now (at + 12)) 0 }
{
    if has_deadlines(edition) {
        return number4(t, at + 12);
    }
    0
}

pub fn task_at(t: &[u8], at: usize, edition: u8) -> Task
    requires { at + task_size edition ≤ length t.now }
    ensures { result ≡ task_in edition t.now at }
{
    Task {
        separation: number4(t, at),
        budget: number4(t, at + 4),
        offset: number4(t, at + 8),
        deadline: deadline_at(t, at, edition),
    }
}

fn put_plain(out: &mut [u8], at: usize, task: Task)
    requires { at + 12 ≤ length out.old }
    ensures { out.new ≡ sets out.old at (plain_bytes task) }
{
    put4(out, at, task.separation);
    put4(out, at + 4, task.budget);
    put4(out, at + 8, task.offset);
}

pub fn put_task(out: &mut [u8], at: usize, task: Task, edition: u8)
    requires { at + task_size edition ≤ length out.old }
    ensures { out.new ≡ sets out.old at (task_bytes edition task) }
{
    put_plain(out, at, task);
    if has_deadlines(edition) {
        put4(out, at + 12, task.deadline);
    }
}
