// Numbers in a fixed count of digits.
#![tactic(auto)]

pub mod fixed;
pub mod radix;
