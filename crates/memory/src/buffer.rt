// A caller's buffer as RAM.
ghost use Rattle.std.specs.Prelude.{◌≡◌};
ghost use Rattle.memory.specs.Ram.{ram_meaning};
ghost use Rattle.memory.specs.Buffer.{StoredInto};
ghost use Rattle.memory.specs.Transfers.{copy_answer, copied};

use crate::memory::Memory;
use crate::not_admitted::NotAdmitted;
use crate::ram::Ram;
use crate::transfer::copy_word;
use access::field_bits::FieldBits;

// Stores the value into the buffer.
#[tactic(auto, using(crate::proofs::Buffers::stored_into))]
pub fn store_into<const F: u32>(
    bits: FieldBits<F>,
    buffer: &mut [u8],
    address: u64,
    width: u64,
    value: u64,
) -> Result<(), NotAdmitted>
    ensures { StoredInto F buffer.old address width value result buffer.new }
{
    let mut ram = Ram::new(bits, buffer);
    ram.store(address, width, value)
}

// Copies a 32-bit word within the buffer.
pub fn copy_word_in<const F: u32>(
    bits: FieldBits<F>,
    buffer: &mut [u8],
    from: u64,
    to: u64,
) -> Result<(), NotAdmitted>
    ensures answer { result ≡ copy_answer (ram_meaning F buffer.old) from to }
    ensures after { ram_meaning F buffer.new ≡ copied (ram_meaning F buffer.old) from to }
{
    let mut ram = Ram::new(bits, buffer);
    copy_word(&mut ram, from, to)
}
