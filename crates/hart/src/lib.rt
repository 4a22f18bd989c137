// Harts: tasks are entered and left, and accesses go through the table to a memory.
#![tactic(auto)]

pub mod harts;
pub mod layouts;
pub mod status;
pub mod supervisor;
mod transfers;
pub mod user;
pub mod user_memory;
pub mod window;
