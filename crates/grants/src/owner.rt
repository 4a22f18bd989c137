// Who uses an entry.
use super::region::Region;

// An entry is free, or the lower of a pair, or the one that shows a task's region. (An Option of the other two is a level more to match.)
#[derive(Clone, Copy, PartialEq, Eq, Debug)]
pub enum Owner {
    Free,
    Lower { task: u64, region: Region },
    Upper { task: u64, region: Region },
}

// The owner of each entry. It stands beside the table's own entries, since a table knows no tasks.
#[derive(Drop)]
pub struct Owners {
    pub(crate) cells: [Owner; 64],
}
