// The rule book of S-mode physical memory protection.
ghost use Rattle.book.specs.SpmpBook.{spmp_book};
ghost use Rattle.book.specs.SpmpLaws.{spmp_laws};

use super::book::RuleBook;
use super::decisions::{decided, place_of};
use access::access::{Kind, Mode, Rights};

#[derive(Clone, Copy)]
pub struct SpmpBook;

impl RuleBook for SpmpBook {
    ghost meaning = { spmp_book };

    ghost lawful = { spmp_laws };

    fn legal(byte: u8) -> bool {
        decided(byte, 9)
    }

    fn permits(byte: u8, mode: Mode, sum: bool, kind: Kind) -> bool {
        match mode {
            Mode::Machine => true,
            Mode::Supervisor => decided(byte, place_of(true, sum, kind)),
            Mode::User => decided(byte, place_of(false, sum, kind)),
        }
    }

    fn unmatched(mode: Mode) -> bool {
        match mode {
            Mode::Machine | Mode::Supervisor => true,
            Mode::User => false,
        }
    }

    fn byte_for(rights: Rights) -> u8 {
        rights.into()
    }
}
