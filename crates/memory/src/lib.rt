// Memories: what one means to the code above it, and three of them: RAM, a register bank and a pair.
// A constructor takes `FieldBits` for what they show: that F is the width of a field.
#![tactic(auto)]

pub mod bank;
pub mod buffer;
mod bytes;
pub mod memory;
pub mod not_admitted;
pub mod pair;
pub mod ram;
mod range;
mod side;
pub mod transfer;
