// The bytes of an access.
ghost use Rattle.std.specs.Prelude.{◌≡◌, ◌+◌, ◌^◌, ◌<◌};

// At least one byte, with an end that leaves room for 64-bit sums.
#[derive(Clone, Copy)]
pub(crate) struct Span {
    pub(crate) address: u64,
    pub(crate) width: u64,
    ghost some: { 0 < width },
    ghost fits: { address + width < 2 ^ 64 },
}

impl Span {
    // The address after the last byte.
    pub(crate) fn end(self) -> u64
        ensures { result ≡ self.address + self.width }
    {
        self.address + self.width
    }
}
