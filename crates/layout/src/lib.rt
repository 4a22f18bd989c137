// Layout files: the tasks and regions that they hold, and the lines that a program prints of them.
#![tactic(auto)]

pub mod decode;
mod header;
pub mod layout;
pub mod lines;
pub mod listing;
mod memory;
pub mod records;
pub mod refusal;
mod regions;
pub mod reports;
pub mod shown;
mod tasks;
#[cfg(test)]
mod tests;
mod words;
