// Where a table's sections stand, and how long a table is, by its edition and its counts.
ghost use Rattle.std.specs.Prelude.{◌≡◌, ◌<◌};
ghost use Rattle.codec.specs.Table.{tasks_from, slack_from, table_length};

use crate::entry::task_size;

// Where the loops' section begins, with its count.
pub fn tasks_from(cores: usize) -> usize
    requires { tasks_from cores < 18446744073709551616 }
    ensures { result ≡ tasks_from cores }
{
    2 + cores
}

// Where the slack's section begins, with its count.
pub fn slack_from(edition: u8, cores: usize, tasks: usize) -> usize
    requires { slack_from edition cores tasks < 18446744073709551616 }
    ensures { result ≡ slack_from edition cores tasks }
{
    tasks_from(cores) + 1 + task_size(edition) * tasks
}

// The length of a table with this edition and these counts.
pub fn table_length(edition: u8, cores: usize, tasks: usize, offers: usize) -> usize
    requires { table_length edition cores tasks offers < 18446744073709551616 }
    ensures { result ≡ table_length edition cores tasks offers }
{
    slack_from(edition, cores, tasks) + 1 + 4 * offers
}
