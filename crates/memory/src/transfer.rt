// Transfers within a memory of any kind.
ghost use Rattle.std.specs.Prelude.{◌≡◌};
ghost use Rattle.memory.specs.Effects.{written};
ghost use Rattle.memory.specs.Transfers.{read_back, copy_answer, copied};

use crate::memory::Memory;
use crate::not_admitted::NotAdmitted;
use access::access::Reading;

// Stores the value and loads it back.
#[tactic(auto, using(crate::proofs::Meanings::value_stored))]
pub fn store_and_load<M: Memory<F>, const F: u32>(
    memory: &mut M,
    address: u64,
    width: u64,
    value: u64,
) -> Result<u64, NotAdmitted>
    ensures answer { result ≡ read_back (M.Memory.meaning memory.old) address width value }
    ensures after { M.Memory.meaning memory.new ≡ written (M.Memory.meaning memory.old) address width value }
    ensures borrows { M.Memory.lenders memory.new ≡ M.Memory.lenders memory.old }
{
    memory.store(address, width, value)?;
    memory.read(Reading::Load, address, width)
}

// Copies a 32-bit word.
pub fn copy_word<M: Memory<F>, const F: u32>(
    memory: &mut M,
    from: u64,
    to: u64,
) -> Result<(), NotAdmitted>
    ensures answer { result ≡ copy_answer (M.Memory.meaning memory.old) from to }
    ensures after { M.Memory.meaning memory.new ≡ copied (M.Memory.meaning memory.old) from to }
    ensures borrows { M.Memory.lenders memory.new ≡ M.Memory.lenders memory.old }
{
    let word = memory.read(Reading::Load, from, 4)?;
    memory.store(to, 4, word)
}
