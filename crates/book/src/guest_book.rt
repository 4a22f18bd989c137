// The rule book of hypervisor guest protection: S and U alike, and no bit S.
ghost use Rattle.std.specs.Prelude.{◌≡◌, ◌<◌};
ghost use Rattle.book.specs.Bits.{bit};
ghost use Rattle.book.specs.GuestBook.{guest_book};
ghost use Rattle.book.specs.GuestLaws.{guest_laws};

use super::book::RuleBook;
use access::access::{Kind, Mode, Rights};

// Bit k of a byte.
fn bit_of(byte: u8, k: u32) -> bool
    requires { k < 8 }
    ensures { result ≡ bit byte k }
{
    (byte >> k) & 1 == 1
}

#[derive(Clone, Copy)]
pub struct GuestBook;

impl RuleBook for GuestBook {
    ghost meaning = { guest_book };

    ghost lawful = { guest_laws };

    fn legal(byte: u8) -> bool {
        !bit_of(byte, 5)
            && !bit_of(byte, 6)
            && !bit_of(byte, 7)
            && (bit_of(byte, 0) || !bit_of(byte, 1))
    }

    fn permits(byte: u8, mode: Mode, _sum: bool, kind: Kind) -> bool {
        match mode {
            Mode::Machine => true,
            Mode::Supervisor | Mode::User => match kind {
                Kind::Load => bit_of(byte, 0),
                Kind::Store => bit_of(byte, 1),
                Kind::Fetch => bit_of(byte, 2),
            },
        }
    }

    fn unmatched(mode: Mode) -> bool {
        match mode {
            Mode::Machine => true,
            Mode::Supervisor | Mode::User => false,
        }
    }

    fn byte_for(rights: Rights) -> u8 {
        rights.into()
    }
}
