// A plan whose regions stay in their entries.
ghost use Rattle.table.specs.Tables.{regs};
ghost use Rattle.grants.specs.Resolving.{Standing};
ghost use Rattle.grants.specs.Once.{Standing-once};

use super::entries::Entries;
use access::field_bits::FieldBits;
use book::book::RuleBook;

// The entries and the selected task. The registers are those of the owners and the selection, and the owners make sense.
#[derive(Drop)]
pub struct ResidentPlan<B: RuleBook, const F: u32> {
    pub(crate) entries: Entries<B, F>,
    pub(crate) selected: Option<u64>,
    pub(crate) bits: FieldBits<F>,
    pub ghost stands: { Standing F B.RuleBook.meaning (regs entries.table) entries.owners.cells selected } by { Standing-once F B.RuleBook.meaning (regs entries.table) entries.owners.cells selected },
}
