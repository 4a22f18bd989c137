// The records of a layout file.

// The index of a task's first region and the number of its regions.
#[derive(Clone, Copy, PartialEq, Eq, Debug)]
pub struct TaskRecord {
    pub first: u32,
    pub count: u32,
}

// A region, in the words of the file, whatever they are: its base and its length in units of four bytes, and its rights, read 1, write 2
// and execute 4 added.
#[derive(Clone, Copy, PartialEq, Eq, Debug)]
pub struct RegionRecord {
    pub base: u32,
    pub length: u32,
    pub rights: u32,
}
