// Whether an access is well formed.
ghost use Rattle.std.specs.Prelude.{◌≡◌, Ok};
ghost use Rattle.access.specs.Formed.{width_of, WellFormed, ill_formed};
ghost use Rattle.access.specs.Cases.{Gives};
ghost use Rattle.access.specs.Refusals.{report_of};

use super::access::Kind;
use super::field_bits::FieldBits;
use super::range::ends_within;
use super::refusal::Refusal;

impl Kind {
    // Whether an access of this kind may have that many bytes. By `|`, without a branch: widths come in no order that one could foresee.
    pub fn has_width(self, width: u64) -> bool
        ensures { result ≡ width_of self width }
    {
        match self {
            Kind::Load | Kind::Store => (width == 1) | (width == 2) | (width == 4) | (width == 8),
            Kind::Fetch => (width == 2) | (width == 4),
        }
    }
}

// Refuses an access that is not well formed. Mode and SUM have no say, so it takes the parts of a request that have.
pub fn well_formed<const F: u32>(
    bits: FieldBits<F>,
    kind: Kind,
    address: u64,
    width: u64,
) -> Result<(), Refusal>
    ensures answer { Gives report_of (ill_formed F kind address width) (λ _. WellFormed F kind address width) result }
    ensures only { WellFormed F kind address width → result ≡ Ok tt }
{
    if !kind.has_width(width) {
        return Err(Refusal::Width);
    }
    if !ends_within(bits.limit(), address, width) {
        return Err(Refusal::Range);
    }
    Ok(())
}
