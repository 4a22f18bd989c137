// Which numbers make a region, and the form that one takes.
ghost use Rattle.std.specs.Prelude.{◌≡◌, ◌+◌, ◌^◌, ◌<◌, ◌≤◌};
ghost use Rattle.grants.specs.Regions.{in_range, fitting, form_of, overlapping, power_of_two};
ghost use Rattle.grants.specs.Refusals.{formless};

use super::region::{Form, Region};
use access::field_bits::FieldBits;
use access::range::ends_within;

// Whether the bytes from a base end at the limit or below.
fn in_range<const F: u32>(bits: FieldBits<F>, base: u64, length: u64) -> bool
    ensures { result ≡ in_range F base length }
{
    ends_within(bits.limit(), base, length)
}

// Whether base and length make a region.
pub fn is_region<const F: u32>(bits: FieldBits<F>, base: u64, length: u64) -> bool
    ensures { result ≡ fitting F base length }
{
    base % 4 == 0 && length % 4 == 0 && length != 0 && in_range(bits, base, length)
}

// Whether a length is a power of two.
fn is_power(length: u64) -> bool
    ensures { result ≡ power_of_two length }
{
    length.is_power_of_two()
}

// The form of a region.
pub fn form_of(base: u64, length: u64) -> Form
    ensures { result ≡ form_of base length }
{
    if length == 4 {
        return Form::Na4;
    }
    if is_power(length) && length >= 8 && base % length == 0 {
        return Form::Napot;
    }
    Form::Pair
}

impl Region {
    // The form that the region takes.
    pub fn form(&self) -> Form
        ensures { result ≡ form_of self.now.base self.now.length }
    {
        form_of(self.base, self.length)
    }

    // Whether the region takes a pair and ends at the limit.
    pub(crate) fn has_no_form<const F: u32>(&self, bits: FieldBits<F>) -> bool
        requires { self.now.base + self.now.length ≤ 2 ^ (F + 2) }
        ensures { result ≡ formless F self.now.base self.now.length }
    {
        match self.form() {
            Form::Na4 | Form::Napot => false,
            Form::Pair => self.base + self.length == bits.limit(),
        }
    }

    // Whether the two have a byte in common. (A `Region` with a byte for a fact would have to prove it in every definition that makes one.)
    pub(crate) fn overlaps(&self, other: &Region) -> bool
        requires { 0 < other.now.length }
        ensures { result ≡ overlapping self.now other.now.base other.now.length }
    {
        if self.base <= other.base {
            other.base - self.base < self.length
        } else {
            self.base - other.base < other.length
        }
    }
}
