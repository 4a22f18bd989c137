// The entries of a table, each with its owner.
ghost use Rattle.table.specs.Tables.{regs};
ghost use Rattle.grants.specs.Residence.{EntriesShow};

use super::owner::Owners;
use book::book::RuleBook;
use table::table::Table;

// Bytes and addresses are those of the owners, whatever is switched on.
#[derive(Drop)]
pub struct Entries<B: RuleBook, const F: u32> {
    pub(crate) table: Table<B, F>,
    pub(crate) owners: Owners,
    pub ghost shown: { EntriesShow B.RuleBook.meaning (regs table) owners.cells },
}
