// Why a grant, a withdrawal or a selection is refused.
#[derive(Clone, Copy, PartialEq, Eq, Debug)]
pub enum GrantRefusal {
    // There is no such task.
    NoSuchTask,
    // Base and length make no region.
    NotARegion,
    // The rights are none of the five sets.
    NotARightsSet,
    // The task holds a region that overlaps.
    Overlap,
    // The region ends at the limit and takes more than one entry.
    NoForm,
    // The task holds as many regions as a task can.
    TooManyRegions,
    // No entry, or no pair of neighbours, is free.
    NoRoom,
    // The task holds no region from that base on.
    NotHeld,
}
