// Two memories, the second directly behind the first.
ghost use Rattle.std.specs.Prelude.{◌≡◌, ◌++◌};
ghost use Rattle.memory.specs.Pair.{pair_meaning, PairOf};
ghost use Rattle.memory.specs.Side.{Goes};
ghost use Rattle.memory.specs.Lawful.{pair_lawful};

use crate::memory::Memory;
use crate::not_admitted::NotAdmitted;
use crate::range::memory_end;
use crate::side::Side;
use access::access::{Kind, Reading};
use access::field_bits::FieldBits;
use access::range::ends_within;

// An access with every byte on one side goes to that side, and any other is refused.
#[derive(Drop)]
pub struct Pair<A, B, const F: u32> {
    first: A,
    second: B,
}

impl<A: Memory<F>, B: Memory<F>, const F: u32> Pair<A, B, F> {
    // The second memory behind the first.
    pub fn new(_bits: FieldBits<F>, first: A, second: B) -> Self
        ensures first { result.first ≡ first }
        ensures second { result.second ≡ second }
        ensures pair { PairOf F (A.Memory.meaning first) (B.Memory.meaning second) (pair_meaning F (A.Memory.meaning result.first) (B.Memory.meaning result.second)) }
    {
        Pair { first, second }
    }

    // The side that holds every byte of an access, if one does.
    fn side(&self, address: u64, width: u64) -> Option<Side>
        ensures { Goes F (A.Memory.meaning self.now.first).size address width result }
    {
        let split = self.first.size();
        if !ends_within(memory_end::<F>(), address, width) {
            None
        } else if ends_within(split, address, width) {
            Some(Side::First)
        } else {
            address.checked_sub(split).map(Side::Second)
        }
    }
}

impl<A: Memory<F>, B: Memory<F>, const F: u32> Memory<F> for Pair<A, B, F> {
    ghost meaning = { λ p. pair_meaning F (A.Memory.meaning p.first) (B.Memory.meaning p.second) };

    ghost lawful = { λ p. pair_lawful F (A.Memory.meaning p.first) (B.Memory.meaning p.second) (A.Memory.lawful p.first) (B.Memory.lawful p.second) };

    ghost lenders = { λ p. A.Memory.lenders p.first ++ B.Memory.lenders p.second };

    fn size(&self) -> u64 {
        let both = self.first.size().saturating_add(self.second.size());
        both.min(memory_end::<F>())
    }

    fn admits(&self, kind: Kind, address: u64, width: u64) -> bool {
        match self.side(address, width) {
            Some(Side::First) => self.first.admits(kind, address, width),
            Some(Side::Second(offset)) => self.second.admits(kind, offset, width),
            None => false,
        }
    }

    #[tactic(auto, using(crate::proofs::Sides::read_first, crate::proofs::Sides::read_second))]
    fn read(&self, reading: Reading, address: u64, width: u64) -> Result<u64, NotAdmitted> {
        match self.side(address, width).ok_or(NotAdmitted)? {
            Side::First => self.first.read(reading, address, width),
            Side::Second(offset) => self.second.read(reading, offset, width),
        }
    }

    #[tactic(auto, using(crate::proofs::Sides::written_second))]
    fn store(&mut self, address: u64, width: u64, value: u64) -> Result<(), NotAdmitted> {
        match self.side(address, width).ok_or(NotAdmitted)? {
            Side::First => self.first.store(address, width, value),
            Side::Second(offset) => self.second.store(offset, width, value),
        }
    }
}
