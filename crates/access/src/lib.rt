// What an access is, when it is well formed, and the refusals that it can get.
#![tactic(auto)]

pub mod access;
mod conversions;
pub mod field_bits;
pub mod formed;
pub mod numbered;
pub mod range;
pub mod refusal;
pub mod reports;
mod requests;
mod shown;
