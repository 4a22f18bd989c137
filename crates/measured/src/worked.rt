// The worked cases that are proved.
ghost use Rattle.std.specs.Prelude.{◌≡◌};
ghost use Rattle.table.specs.Bounds.{pair_of};
ghost use Rattle.measured.specs.Worked.{WorkedCases};

use access::field_bits::FieldBits;
use table::bounds::{Bounds, resolve};
use table::matching::Matching;

// The worked cases hold on the definitions; the first of them is what the code answers.
pub fn worked_cases() -> Bounds
    ensures cases { WorkedCases }
    ensures page { pair_of result ≡ (0x80000000, 0x80001000) }
{
    resolve(FieldBits::rv32(), Matching::Napot, 0x2000_01ff, 0)
}
