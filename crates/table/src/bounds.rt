// What an entry covers: from its first byte up to its end, which it does not cover.
ghost use Rattle.std.specs.Prelude.{◌≡◌, ◌+◌, ◌%◌, ◌^◌};
ghost use Rattle.table.specs.Bounds.{matching_of, resolved, pair_of, trailing_ones, napot_first, NapotBlock, FieldLaws};

use super::field::Field;
use super::matching::Matching;
use access::field_bits::FieldBits;

// The first byte that is covered, and the end.
#[derive(Clone, Copy, PartialEq, Eq, Debug)]
pub struct Bounds {
    pub first: u64,
    pub end: u64,
}

// The A field of a configuration byte. (As a `From<u8>` it would say that the byte is no more than that.)
pub fn matching_of(byte: u8) -> Matching
    ensures { result ≡ matching_of byte }
{
    match (byte >> 3) & 3 {
        0 => Matching::Off,
        1 => Matching::Tor,
        2 => Matching::Na4,
        _ => Matching::Napot,
    }
}

// The bounds of a naturally aligned power of two.
fn napot<const F: u32>(address: Field<F>) -> Bounds
    ensures first { result.first ≡ napot_first (trailing_ones 64 address.entry.value) address.entry.value }
    ensures end { result.end ≡ result.first + 2 ^ (trailing_ones 64 address.entry.value + 3) }
{
    let n = address.trailing_ones();
    let cleared = address.value >> (n + 1) << (n + 1);
    let first = 4 * cleared;
    Bounds {
        first,
        end: first + (1u64 << (n + 3)),
    }
}

// The bounds that two address registers give.
fn bounds_of<const F: u32>(matching: Matching, address: Field<F>, below: Field<F>) -> Bounds
    ensures value { pair_of result ≡ resolved matching address.entry.value below.entry.value }
    ensures block { NapotBlock matching address.entry.value (pair_of result) }
{
    match matching {
        Matching::Off => Bounds { first: 0, end: 0 },
        Matching::Tor => Bounds {
            first: 4 * below.value,
            end: 4 * address.value,
        },
        Matching::Na4 => Bounds {
            first: 4 * address.value,
            end: 4 * address.value + 4,
        },
        Matching::Napot => napot(address),
    }
}

// The bounds of an entry with this address register, where `below` is that of the entry below; each counts as a field of F bits.
pub fn resolve<const F: u32>(
    bits: FieldBits<F>,
    matching: Matching,
    address: u64,
    below: u64,
) -> Bounds
    ensures value { pair_of result ≡ resolved matching (address % 2 ^ F) (below % 2 ^ F) }
    ensures block { NapotBlock matching (address % 2 ^ F) (pair_of result) }
    ensures fields { FieldLaws F }
{
    bounds_of(matching, Field::of(bits, address), Field::of(bits, below))
}
