// The entries and the switch bits, with the bounds of each entry kept beside its registers.
ghost use Rattle.table.specs.Registers.{AddressesBelow};
ghost use Rattle.table.specs.Entries.{registers_of, Kept};

use super::bounds::Bounds;
use access::field_bits::FieldBits;

// An entry: its configuration byte, its address register, and its bounds as they were last resolved.
// The address is a plain number: as a `Field<F>` it would give an entry, and each definition over entries, the parameter F.
#[derive(Clone, Copy)]
pub struct Entry {
    pub config: u8,
    pub address: u64,
    pub bounds: Bounds,
}

// The switch bits stand beside the entries and not in them, since the switch words are registers of their own.
// Functions take an entry's number below 64 as it is: an index type would be made of each loop's number, by the same bound.
// Bit i of the switches belongs to entry i. The address registers are fields of F bits, and the bounds that are kept are those of the
// registers as they stand.
#[derive(Drop)]
pub struct PlainTable<const F: u32> {
    pub entries: [Entry; 64],
    pub switches: u64,
    pub bits: FieldBits<F>,
    pub ghost below: { AddressesBelow F (registers_of entries switches) },
    pub ghost kept: { Kept entries switches },
}
