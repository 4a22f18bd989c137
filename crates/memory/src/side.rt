// The side of a pair of memories that holds every byte of an access.
#[derive(Clone, Copy)]
pub(crate) enum Side {
    First,
    // The address there.
    Second(u64),
}
