// What an access is: its kind, the mode in which it is made, where it goes, and the rights that allow it.

// What an access does.
#[derive(Clone, Copy, PartialEq, Eq, Debug)]
pub enum Kind {
    Load,
    Store,
    Fetch,
}

// The privilege mode in which an access is made.
#[derive(Clone, Copy, PartialEq, Eq, Debug)]
pub enum Mode {
    Machine,
    Supervisor,
    User,
}

// The kinds of access that read.
#[derive(Clone, Copy, PartialEq, Eq, Debug)]
pub enum Reading {
    Load,
    Fetch,
}

// An access as a table is asked for it: in which mode and with which SUM, what it does, and the bytes that it is made to.
// SUM stands beside the mode and not in it, since it is a bit of the hart's status in every mode.
#[derive(Clone, Copy, PartialEq, Eq, Debug)]
pub struct Request {
    pub mode: Mode,
    pub sum: bool,
    pub kind: Kind,
    pub address: u64,
    pub width: u64,
}

// The sets of rights that a region can have, by the letters of read, write and execute.
#[derive(Clone, Copy, PartialEq, Eq, Debug)]
pub enum Rights {
    R,
    RX,
    X,
    RW,
    RWX,
}

// Rights that are none of the five sets.
#[derive(Clone, Copy, PartialEq, Eq, Debug)]
pub struct NotASet;
