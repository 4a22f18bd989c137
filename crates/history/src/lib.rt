// The calls of a run and their answers, what a history of them shows, and the theorem about runs.
#![tactic(auto)]

pub mod call;
mod conversions;
mod reports;
