// A table of entries under a rule book, with address fields of F bits.
ghost use Rattle.table.specs.Registers.{AllLegal};
ghost use Rattle.table.specs.Entries.{registers_of};

use super::entries::PlainTable;
use book::book::RuleBook;
use std::marker::PhantomData;

// Every configuration byte is one that the book holds for legal.
#[derive(Drop)]
pub struct Table<B: RuleBook, const F: u32> {
    pub(crate) plain: PlainTable<F>,
    pub(crate) book: PhantomData<B>,
    pub ghost legal: { AllLegal B.RuleBook.meaning (registers_of plain.entries plain.switches) },
}
