// A bank of sixteen 32-bit registers.
ghost use Rattle.std.specs.Prelude.{◌≡◌, [], replicate};
ghost use Rattle.memory.specs.Bank.{bank_meaning, ZeroBank};
ghost use Rattle.memory.specs.Lawful.{bank_lawful};

use crate::bytes::{read_at, write_at};
use crate::memory::Memory;
use crate::not_admitted::NotAdmitted;
use crate::range::memory_end;
use access::access::{Kind, Reading};
use access::field_bits::FieldBits;
use access::range::ends_within;

// Whole registers can be loaded and stored; nothing can be fetched.
#[derive(Drop)]
pub struct Bank<const F: u32> {
    bytes: [u8; 64],
}

impl<const F: u32> Bank<F> {
    // A bank of zeros.
    #[tactic(auto, using(crate::proofs::Delivered::zero_bank))]
    pub fn new(_bits: FieldBits<F>) -> Self
        ensures zeros { result.bytes ≡ replicate 64 0 }
        ensures bank { ZeroBank (bank_meaning F result.bytes) }
    {
        Bank { bytes: [0; 64] }
    }
}

impl<const F: u32> Memory<F> for Bank<F> {
    ghost meaning = { λ b. bank_meaning F b.bytes };

    ghost lawful = { λ b. bank_lawful F b.bytes };

    ghost lenders = { λ _. [] };

    fn size(&self) -> u64 {
        memory_end::<F>().min(64)
    }

    fn admits(&self, kind: Kind, address: u64, width: u64) -> bool {
        match kind {
            Kind::Load | Kind::Store => {
                width == 4 && address % 4 == 0 && ends_within(self.size(), address, width)
            }
            Kind::Fetch => false,
        }
    }

    fn read(&self, reading: Reading, address: u64, width: u64) -> Result<u64, NotAdmitted> {
        if !self.admits(reading.into(), address, width) {
            return Err(NotAdmitted);
        }
        Ok(read_at(&self.bytes, address as usize, width as usize))
    }

    fn store(&mut self, address: u64, width: u64, value: u64) -> Result<(), NotAdmitted> {
        if !self.admits(Kind::Store, address, width) {
            return Err(NotAdmitted);
        }
        write_at(&mut self.bytes, address as usize, width as usize, value);
        Ok(())
    }
}
