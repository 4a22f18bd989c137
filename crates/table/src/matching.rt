// How an entry matches addresses: its A field.
#[derive(Clone, Copy, PartialEq, Eq, Debug)]
pub enum Matching {
    // Nothing.
    Off,
    // From the address of the entry below up to its own.
    Tor,
    // Four bytes.
    Na4,
    // A naturally aligned power of two of eight bytes or more.
    Napot,
}
