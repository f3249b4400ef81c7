// A plan's tasks field by field: the functions above read rows of numbers.
ghost use Rattle.std.specs.Prelude.{◌≡◌, ◌≤◌};
ghost use Rattle.fields.specs.Columns.{columns_of};

use tasks::Task;

#[derive(Clone, Copy)]
pub struct Columns {
    pub separation: [u32; 16],
    pub budget: [u32; 16],
    pub offset: [u32; 16],
}

pub fn split(task: [Task; 16], tasks: usize) -> Columns
    requires { tasks ≤ 16 }
    ensures { result ≡ columns_of tasks task }
{
    let mut separation = [0u32; 16];
    let mut budget = [0u32; 16];
    let mut offset = [0u32; 16];
    for i in 0..tasks {
        let t = task[i];
        separation[i] = t.separation;
        budget[i] = t.budget;
        offset[i] = t.offset;
    }
    Columns {
        separation,
        budget,
        offset,
    }
}
