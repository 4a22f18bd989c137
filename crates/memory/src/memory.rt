// A memory, as the code above it sees one: by its meaning alone.
ghost use Rattle.std.specs.Prelude.{◌≡◌, List};
ghost use Rattle.std.specs.Borrow.{GName};
ghost use Rattle.memory.specs.Meaning.{MemoryMeaning, MemoryLaws};
ghost use Rattle.memory.specs.Effects.{read_answer, store_answer, written};
ghost use Rattle.access.specs.Kinds.{kind_of};

use crate::not_admitted::NotAdmitted;
use access::access::{Kind, Reading};

// A memory whose addresses are those of fields of F bits.
// Address and width are two arguments, as on a bus: a struct of them would be made at each call and taken apart in it.
pub trait Memory<const F: u32> {
    // Its size, its bytes, and the accesses that it admits.
    ghost meaning: { Self → MemoryMeaning };

    // What holds of every meaning.
    ghost lawful: { (m : Self) → MemoryLaws F (meaning m) };

    // The names of what the memory borrows. That a call keeps them is said of each: it relates two states, and is no fact of one.
    ghost lenders: { Self → List GName };

    // The number of bytes.
    fn size(&self) -> u64
        ensures { result ≡ (meaning self.now).size };

    // Whether the memory admits an access.
    fn admits(&self, kind: Kind, address: u64, width: u64) -> bool
        ensures { result ≡ (meaning self.now).admits kind address width };

    // The little-endian value of the bytes of an admitted load or fetch.
    fn read(&self, reading: Reading, address: u64, width: u64) -> Result<u64, NotAdmitted>
        ensures { result ≡ read_answer (meaning self.now) (kind_of reading) address width };

    // Replaces the bytes of an admitted store by the low bytes of the value.
    fn store(&mut self, address: u64, width: u64, value: u64) -> Result<(), NotAdmitted>
        ensures answer { result ≡ store_answer (meaning self.old) address width }
        ensures after { meaning self.new ≡ written (meaning self.old) address width value }
        ensures borrows { lenders self.new ≡ lenders self.old };
}
