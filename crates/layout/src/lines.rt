// The lines that a program prints of a layout.

// An entry of the table: its number, configuration byte and address register, and the task that it serves.
#[derive(Clone, Copy, PartialEq, Eq, Debug)]
pub struct EntryLine {
    pub number: u8,
    pub byte: u8,
    pub address: u32,
    pub task: u8,
}

// A task, and the two switch words that select its entries.
#[derive(Clone, Copy, PartialEq, Eq, Debug)]
pub struct SwitchLine {
    pub task: u8,
    pub low: u32,
    pub high: u32,
}

// Why a file is refused.
#[derive(Clone, Copy, PartialEq, Eq, Debug)]
pub enum RefusalLine {
    // What is wrong stands at a byte place of the file.
    AtPlace { number: u8, place: usize },
    // A region of a task cannot be given.
    OfRegion { number: u8, task: u8, region: u8 },
}
