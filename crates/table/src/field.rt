// What an address register holds.
ghost use Rattle.std.specs.Prelude.{◌≡◌, ◌%◌, ◌^◌, ◌<◌, ◌≤◌};
ghost use Rattle.table.specs.Bounds.{trailing_ones};

use access::field_bits::FieldBits;

// A value of F bits, which leaves room for 64-bit sums.
#[derive(Clone, Copy)]
pub(crate) struct Field<const F: u32> {
    pub(crate) value: u64,
    ghost fits: { value < 2 ^ F },
    ghost room: { value < 2 ^ 60 },
}

impl<const F: u32> Field<F> {
    // What an address register keeps of a value written to it.
    pub(crate) fn of(bits: FieldBits<F>, value: u64) -> Self
        ensures { result.value ≡ value % 2 ^ F }
    {
        Field {
            value: bits.field(value),
        }
    }

    // How many ones it ends in.
    pub(crate) fn trailing_ones(self) -> u32
        ensures count { result ≡ trailing_ones 64 self.entry.value }
        ensures most { result ≤ 60 }
    {
        self.value.trailing_ones()
    }
}

impl From<u32> for Field<32> {
    fn from(value: u32) -> Self
        ensures { result.value ≡ value }
    {
        Field {
            value: u64::from(value),
        }
    }
}
