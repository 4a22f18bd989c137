// A rule book decides what a configuration byte means.
ghost use Rattle.std.specs.Prelude.{◌≡◌};
ghost use Rattle.book.specs.Books.{Book, Laws};

use access::access::{Kind, Mode, Rights};

pub trait RuleBook {
    ghost meaning: { Book };

    // Whether an entry can hold the byte.
    fn legal(byte: u8) -> bool
        ensures { result ≡ meaning.legal byte };

    // What an entry with the byte permits. (Not by a `Request`: where the access goes is not the book's.)
    fn permits(byte: u8, mode: Mode, sum: bool, kind: Kind) -> bool
        ensures { result ≡ meaning.permits byte mode sum kind };

    // What is permitted where no entry matches.
    fn unmatched(mode: Mode) -> bool
        ensures { result ≡ meaning.unmatched mode };

    // The byte, its A field clear, that gives user mode exactly these rights.
    fn byte_for(rights: Rights) -> u8
        ensures { result ≡ meaning.byte_for rights };

    ghost lawful: { Laws meaning };
}
