// The register table: 64 entries, the switch words, and the check of an access against them.
#![tactic(auto)]

pub mod bounds;
pub mod check;
pub mod context;
pub mod entries;
mod field;
mod lookup;
pub mod matching;
pub mod refusal;
pub mod registers;
mod reports;
mod rv32;
mod span;
pub mod table;
mod writes;
