// Where memories end.
ghost use Rattle.std.specs.Prelude.{◌≡◌};
ghost use Rattle.memory.specs.Meaning.{memory_end};

// The end of the addresses, defined for every F; up to 60 bits it is the limit.
// A memory keeps no `FieldBits`: no type argument may yet hold a `&mut` and a struct that has a ghost field.
pub(crate) fn memory_end<const F: u32>() -> u64
    ensures { result ≡ memory_end F }
{
    1u64 << (F.min(60) + 2)
}
