// Why a layout file is refused.

// Each case but the first and the last has the byte place of what is wrong.
#[derive(Clone, Copy, PartialEq, Eq, Debug)]
pub enum LayoutRefusal {
    // The file is shorter than a header.
    Short,
    // There are too many tasks or regions.
    TooMany { place: usize },
    // An offset or the length of the file is not what the counts give.
    Shape { place: usize },
    // The tasks do not part the regions among them.
    Partition { place: usize },
    // A region's fourth word is not zero.
    Reserved { place: usize },
    // No memory was left for the records. It says nothing of the file, and has no number.
    OutOfMemory,
}
