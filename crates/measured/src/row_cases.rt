// What configuration bytes permit.
use crate::tally::Tally;
use access::access::{Kind, Mode};
use book::book::RuleBook;
use book::guest_book::GuestBook;
use book::spmp_book::SpmpBook;
use std::alloc::AllocError;
use std::io;

fn letter(yes: bool, letter: char) -> char {
    if yes { letter } else { '-' }
}

// The rights that a byte gives in a mode, as three letters each for U, S with SUM clear and S with SUM set.
fn row<B: RuleBook>(tally: &mut Tally, byte: u8, want: &str) -> io::Result<()> {
    let mut got = String::new(tally.heap());
    if B::legal(byte) {
        three::<B>(&mut got, byte, Mode::User, false)?;
        got.push(' ')?;
        three::<B>(&mut got, byte, Mode::Supervisor, false)?;
        got.push(' ')?;
        three::<B>(&mut got, byte, Mode::Supervisor, true)?;
    } else {
        got.push_str("not legal")?;
    }
    let name = format!(in tally.heap(); "byte {byte:02x}")?;
    tally.case(name.as_str(), got.as_str(), want)
}

fn three<B: RuleBook>(
    text: &mut String,
    byte: u8,
    mode: Mode,
    sum: bool,
) -> Result<(), AllocError> {
    text.push(letter(B::permits(byte, mode, sum, Kind::Load), 'r'))?;
    text.push(letter(B::permits(byte, mode, sum, Kind::Store), 'w'))?;
    text.push(letter(B::permits(byte, mode, sum, Kind::Fetch), 'x'))
}

fn rows<B: RuleBook>(tally: &mut Tally, cases: &[(u8, &str)]) -> io::Result<()> {
    for (byte, want) in cases {
        row::<B>(tally, *byte, want)?;
    }
    Ok(())
}

// The sixteen rows of S R W X, with an A field that matters to none of them.
pub(crate) fn spmp_rows(tally: &mut Tally) -> io::Result<()> {
    let cases = [
        (0x08, "--- --- ---"),
        (0x0c, "--x --- ---"),
        (0x09, "r-- --- r--"),
        (0x0d, "r-x --- r--"),
        (0x0b, "rw- --- rw-"),
        (0x0f, "rwx --- rw-"),
        (0x0a, "r-- rw- rw-"),
        (0x0e, "rw- rw- rw-"),
        (0x88, "not legal"),
        (0x8c, "--- --x --x"),
        (0x89, "--- r-- r--"),
        (0x8d, "--- r-x r-x"),
        (0x8b, "--- rw- rw-"),
        (0x8a, "--x --x --x"),
        (0x8e, "--x r-x r-x"),
        (0x8f, "r-- r-- r--"),
        (0x20, "not legal"),
    ];
    rows::<SpmpBook>(tally, &cases)
}

// Bytes of the guest book, legal and not.
pub(crate) fn guest_bytes(tally: &mut Tally) -> io::Result<()> {
    let cases = [
        (0x00, "--- --- ---"),
        (0x1f, "rwx rwx rwx"),
        (0x15, "r-x r-x r-x"),
        (0x02, "not legal"),
        (0x06, "not legal"),
        (0x81, "not legal"),
        (0x41, "not legal"),
    ];
    rows::<GuestBook>(tally, &cases)
}
