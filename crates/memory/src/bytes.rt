// Little-endian values in slices of bytes.
// RAM and bank each ask whether they admit before they come here: one function for both would take the answer and promise both outcomes.
ghost use Rattle.std.specs.Prelude.{◌≡◌, ℕ, ◌+◌, ◌<◌, ◌≤◌, length, slice_index};
ghost use Rattle.memory.specs.Effects.{value_at, byte_of, replaced};
ghost use Rattle.memory.specs.Bytes.{byte_in};

// Writes the low bytes of the value into the whole slice, which has at most eight.
fn write_le(part: &mut [u8], value: u64)
    requires { length part.old ≤ 8 }
    ensures { (i : ℕ) → i < length part.old → slice_index part.new i ≡ byte_of value i }
{
    let bytes = value.to_le_bytes();
    part.copy_from_slice(&bytes[..part.len()]);
}

// The value of at most eight bytes.
#[tactic(auto, using(crate::proofs::Values::from_part))]
fn read_le(part: &[u8]) -> u64
    requires { length part.now ≤ 8 }
    ensures { result ≡ value_at (byte_in part.now) 0 (length part.now) }
{
    let mut bytes = [0; 8];
    bytes[..part.len()].copy_from_slice(part);
    u64::from_le_bytes(bytes)
}

// The value of the `width` bytes from `start`.
#[tactic(auto, using(crate::proofs::Parts::value_part))]
pub(crate) fn read_at(bytes: &[u8], start: usize, width: usize) -> u64
    requires inside { start + width ≤ length bytes.now }
    requires fits { width ≤ 8 }
    ensures { result ≡ value_at (byte_in bytes.now) start width }
{
    read_le(&bytes[start..start + width])
}

// Lends the `width` bytes from `start` to the writer, which gives them the low bytes of the value.
pub(crate) fn write_at(bytes: &mut [u8], start: usize, width: usize, value: u64)
    requires inside { start + width ≤ length bytes.old }
    requires fits { width ≤ 8 }
    ensures { (k : ℕ) → byte_in bytes.new k ≡ replaced (byte_in bytes.old) start width value k }
{
    write_le(&mut bytes[start..start + width], value);
}
