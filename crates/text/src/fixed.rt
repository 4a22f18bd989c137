// Numbers that print in a fixed count of digits: the lowest ones, with leading zeros.
ghost use Rattle.std.specs.Prelude.{Some};
ghost use Rattle.std.specs.Fmt.{WritesOnOk};
ghost use Rattle.text.specs.Digits.{digits};

use super::radix::{Decimal, Hexadecimal, Radix};
use std::fmt;
use std::marker::PhantomData;

// A number that prints as its lowest COUNT digits.
// Unlike `{:02}` or `{:08x}`, a number too large for its digits prints its lowest ones, as the formats want.
#[derive(Clone, Copy)]
pub struct Digits<R, const COUNT: u32> {
    pub value: u64,
    radix: PhantomData<R>,
}

// Two decimal digits.
pub type Decimal2 = Digits<Decimal, 2>;

// A byte in two hexadecimal digits.
pub type Hex2 = Digits<Hexadecimal, 2>;

// A word in eight hexadecimal digits.
pub type Hex8 = Digits<Hexadecimal, 8>;

// An address in nine hexadecimal digits.
pub type Hex9 = Digits<Hexadecimal, 9>;

impl<R: Radix, const COUNT: u32> Digits<R, COUNT> {
    pub fn new<N: Into<u64>>(value: N) -> Self
        ensures { N.converts value result.value }
    {
        Digits {
            value: value.into(),
            radix: PhantomData,
        }
    }
}

impl<R: Radix, const COUNT: u32> fmt::Display for Digits<R, COUNT> {
    ghost output = { λ x. Some (digits R.BASE COUNT x.value) };

    fn fmt<W: fmt::Write>(&self, f: &mut fmt::Formatter<W>) -> fmt::Result {
        write_digits::<R, W>(f, COUNT, self.value)
    }
}

// Writes the lowest `count` digits of a number in base R, highest first.
fn write_digits<R: Radix, W: fmt::Write>(
    f: &mut fmt::Formatter<W>,
    count: u32,
    n: u64,
) -> fmt::Result
    ensures { WritesOnOk W.write_str_gives f.old result (digits R.BASE count n) f.new }
{
    if count == 0 {
        return Ok(());
    }
    let base = R::BASE;
    let base_wide = u64::from(base);
    write_digits::<R, W>(f, count - 1, n / base_wide)?;
    let lowest = (n % base_wide) as u32;
    let last = char::from_digit(lowest, base).unwrap();
    write!(f, "{last}")
}
