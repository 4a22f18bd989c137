// Where an access or a region ends.
ghost use Rattle.std.specs.Prelude.{◌≡◌, ◌+◌, nat_le};

// Whether `width` bytes from an address end at `end` or below.
pub fn ends_within(end: u64, address: u64, width: u64) -> bool
    ensures { result ≡ nat_le (address + width) end }
{
    address.checked_add(width).is_some_and(|past| past <= end)
}
