// RAM in a buffer that the caller lends.
ghost use Rattle.std.specs.Prelude.{◌≡◌, [], ◌∷◌};
ghost use Rattle.memory.specs.Ram.{ram_meaning, RamOver};
ghost use Rattle.memory.specs.Lawful.{ram_lawful};

use crate::bytes::{read_at, write_at};
use crate::memory::Memory;
use crate::not_admitted::NotAdmitted;
use crate::range::memory_end;
use access::access::{Kind, Reading};
use access::field_bits::FieldBits;
use access::range::ends_within;

// As much of the buffer as there are addresses, open to every well-formed access that stays inside.
#[derive(Drop)]
pub struct Ram<'a, const F: u32> {
    bytes: &'a mut [u8],
}

impl<'a, const F: u32> Ram<'a, F> {
    // A RAM over the slice, which then holds what was stored.
    pub fn new(_bits: FieldBits<F>, bytes: &'a mut [u8]) -> Self
        ensures held { result.bytes.now ≡ bytes.old }
        ensures ram { RamOver F bytes.old (ram_meaning F result.bytes.now) }
        ensures borrows { result.bytes.ghost_name ≡ bytes.entry.ghost_name }
    {
        Ram { bytes }
    }
}

impl<'a, const F: u32> Memory<F> for Ram<'a, F> {
    ghost meaning = { λ r. ram_meaning F r.bytes.now };

    ghost lawful = { λ r. ram_lawful F r.bytes.now };

    ghost lenders = { λ r. r.bytes.ghost_name ∷ [] };

    fn size(&self) -> u64 {
        let length = self.bytes.len() as u64;
        length.min(memory_end::<F>())
    }

    fn admits(&self, kind: Kind, address: u64, width: u64) -> bool {
        kind.has_width(width) && ends_within(self.size(), address, width)
    }

    fn read(&self, reading: Reading, address: u64, width: u64) -> Result<u64, NotAdmitted> {
        if !self.admits(reading.into(), address, width) {
            return Err(NotAdmitted);
        }
        Ok(read_at(self.bytes, address as usize, width as usize))
    }

    fn store(&mut self, address: u64, width: u64, value: u64) -> Result<(), NotAdmitted> {
        if !self.admits(Kind::Store, address, width) {
            return Err(NotAdmitted);
        }
        write_at(self.bytes, address as usize, width as usize, value);
        Ok(())
    }
}
