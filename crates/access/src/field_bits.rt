// The width of an address field.
ghost use Rattle.std.specs.Prelude.{◌≡◌, ◌%◌, ◌^◌, ◌≤◌};
ghost use Rattle.access.specs.Formed.{limit};

// An address register has F bits and holds an address without its lowest two, so addresses end at 2^(F+2).
// The bounds leave room for 64-bit sums, and for a register bank below the end.
#[derive(Clone, Copy)]
pub struct FieldBits<const F: u32> {
    ghost least: { 4 ≤ F },
    ghost fits: { F ≤ 60 },
}

impl FieldBits<32> {
    // The fields of RV32, whose addresses end at 2^34.
    pub fn rv32() -> Self
        ensures { limit 32 ≡ 2 ^ 34 }
    {
        FieldBits {}
    }
}

impl<const F: u32> FieldBits<F> {
    // The end of the addresses.
    pub fn limit(self) -> u64
        ensures { result ≡ limit F }
    {
        1u64 << (F + 2)
    }

    // What an address register keeps of a value written to it.
    pub fn field(self, value: u64) -> u64
        ensures { result ≡ value % 2 ^ F }
    {
        value % (1u64 << F)
    }
}
