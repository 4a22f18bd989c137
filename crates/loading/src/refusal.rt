// Why a layout is not granted whole.
use grants::refusal::GrantRefusal;

// The refusal of a grant, the number of its task, and the index of its region in the file.
#[derive(Clone, Copy, PartialEq, Eq, Debug)]
pub struct LoadRefusal {
    pub refusal: GrantRefusal,
    pub task: usize,
    pub region: usize,
}
