// Runs: calls played on a new hart beside a memory.
#![tactic(auto)]

mod accesses;
pub mod hart_state;
mod plan_calls;
pub mod play;
pub mod runs;
pub mod turn;
