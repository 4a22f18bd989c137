// Regions, and the form of the entries that show one.
use access::access::Rights;

// The `length` bytes from `base`, and what their holder may do there.
#[derive(Clone, Copy, PartialEq, Eq, Debug)]
pub struct Region {
    pub base: u64,
    pub length: u64,
    pub rights: Rights,
}

// How entries show a region.
#[derive(Clone, Copy, PartialEq, Eq, Debug)]
pub enum Form {
    // One entry of four bytes.
    Na4,
    // One entry of a naturally aligned power of two.
    Napot,
    // Two neighbours: the lower has the base, the upper the end.
    Pair,
}
