// Numbers that stand for rights, and the kind of an access that reads.
ghost use Rattle.std.specs.Prelude.{◌≡◌};
ghost use Rattle.access.specs.Kinds.{kind_of};
ghost use Rattle.access.specs.Rights.{sum_of, RightsFrom};

use super::access::{Kind, NotASet, Reading, Rights};

impl From<Reading> for Kind {
    ghost from_gives = { λ r k. k ≡ kind_of r };

    fn from(reading: Reading) -> Self {
        match reading {
            Reading::Load => Kind::Load,
            Reading::Fetch => Kind::Fetch,
        }
    }
}

// The sum of R 1, W 2 and X 4, which a configuration byte has in its lowest bits.
impl From<Rights> for u8 {
    ghost from_gives = { λ rights n. n ≡ sum_of rights };

    fn from(rights: Rights) -> Self {
        match rights {
            Rights::R => 1,
            Rights::RW => 3,
            Rights::X => 4,
            Rights::RX => 5,
            Rights::RWX => 7,
        }
    }
}

// The rights that a number is the sum of.
impl TryFrom<u64> for Rights {
    type Error = NotASet;

    ghost try_from_gives = { RightsFrom };

    fn try_from(sum: u64) -> Result<Self, NotASet> {
        match sum {
            1 => Ok(Rights::R),
            3 => Ok(Rights::RW),
            4 => Ok(Rights::X),
            5 => Ok(Rights::RX),
            7 => Ok(Rights::RWX),
            _ => Err(NotASet),
        }
    }
}
