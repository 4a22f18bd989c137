// Regions that tasks hold, and the entries that show them.
#![tactic(auto)]

pub mod admission;
pub mod call;
mod calls;
pub mod entries;
pub mod forms;
mod listing;
pub mod owner;
mod ownership;
mod placing;
pub mod plan;
pub mod refusal;
pub mod region;
mod reports;
pub mod resident;
pub mod resident_plan;
mod search;
pub mod task_access;
