// Layouts granted on a plan, and what is printed of the plan then.
#![tactic(auto)]

pub mod entries;
pub mod listing;
pub mod load;
pub mod refusal;
pub mod report;
mod reports;
pub mod switches;
