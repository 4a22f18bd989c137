// Rule books: what a configuration byte permits.
#![tactic(auto)]

pub mod book;
mod decisions;
pub mod guest_book;
pub mod spmp_book;
