// Why an access is refused.

// What a fault record holds: the cause, the address of the access and the deciding entry, 64 for none.
// Cause and entry are numbers and no enum or Option, since that is how the record has them.
#[derive(Clone, Copy, PartialEq, Eq, Debug)]
pub struct Fault {
    pub cause: u8,
    pub address: u64,
    pub entry: u8,
}

#[derive(Clone, Copy, PartialEq, Eq, Debug)]
pub enum Refusal {
    // The width is none of the kind's.
    Width,
    // The access passes the end of the addresses.
    Range,
    // The table stopped the access.
    Stopped(Fault),
    // The memory does not admit the access.
    NotAdmitted(Fault),
}
