// What a wish leaves for a task's offset, and whether a slack takes more than it leaves.
#![tactic(auto)]

ghost use Rattle.std.specs.Prelude.{◌≡◌, ℕ, ◌-◌, ◌<◌, ◌≤◌, min};
ghost use Rattle.laws.specs.First.{first};
ghost use Rattle.laws.specs.Tab.{tab, cut};
ghost use Rattle.tasks.specs.TaskSet.{row};
ghost use Rattle.wish_offsets.specs.Rows.{room_row, offset_row, past_row};

// W − C of each task.
pub fn rooms(wish: &[u32; 16], budget: &[u32; 16], tasks: usize) -> [u32; 16]
    requires { (tasks ≤ 16) × ((i : ℕ) → i < tasks → row budget.now i ≤ row wish.now i) }
    ensures { result ≡ tab (cut tasks (room_row wish.now budget.now) 0) 16 }
{
    let mut room = [0u32; 16];
    for i in 0..tasks {
        room[i] = wish[i] - budget[i];
    }
    room
}

// "the smaller of T and W − C − x"
fn largest_offset(separation: u32, room: u32, slack: u32) -> u32
    ensures { result ≡ min separation (room - slack) }
{
    separation.min(room.saturating_sub(slack))
}

// The largest offsets that a slack leaves. Arrays one by one: the struct of a sheet is above this crate, in wish_search, with its methods.
pub fn offsets(
    separation: &[u32; 16],
    room: &[u32; 16],
    slack: &[u32; 16],
    tasks: usize,
) -> [u32; 16]
    requires { tasks ≤ 16 }
    ensures { result ≡ tab (cut tasks (offset_row separation.now room.now slack.now) 0) 16 }
{
    let mut offset = [0u32; 16];
    for i in 0..tasks {
        offset[i] = largest_offset(separation[i], room[i], slack[i]);
    }
    offset
}

// The lowest task whose slack is above W − C, or `tasks` where there is none.
pub fn first_past(slack: &[u32; 16], room: &[u32; 16], tasks: usize) -> usize
    requires { tasks ≤ 16 }
    ensures { result ≡ first (past_row slack.now room.now) tasks }
{
    for i in 0..tasks {
        if room[i] < slack[i] {
            return i;
        }
    }
    tasks
}
