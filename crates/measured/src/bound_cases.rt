// The bounds of entries.
use crate::tally::Tally;
use access::field_bits::FieldBits;
use std::io;
use table::bounds::{Bounds, resolve};
use table::matching::Matching;

fn bound(
    tally: &mut Tally,
    matching: Matching,
    address: u64,
    below: u64,
    want: &str,
) -> io::Result<()> {
    let Bounds { first, end } = resolve(FieldBits::rv32(), matching, address, below);
    let name = format!(in tally.heap(); "{matching:?} {address:08x} over {below:08x}")?;
    let got = format!(in tally.heap(); "{first:09x} to {end:09x}")?;
    tally.case(name.as_str(), got.as_str(), want)
}

// Each way of matching, at its edges.
pub(crate) fn bounds(tally: &mut Tally) -> io::Result<()> {
    let cases = [
        (Matching::Off, 0xffff_ffff, 0, "000000000 to 000000000"),
        (
            Matching::Tor,
            0x2000_0a00,
            0x2000_0400,
            "080001000 to 080002800",
        ),
        (Matching::Tor, 0, 0xffff_ffff, "3fffffffc to 000000000"),
        (Matching::Na4, 0x0400_0000, 0, "010000000 to 010000004"),
        (Matching::Na4, 0xffff_ffff, 0, "3fffffffc to 400000000"),
        (Matching::Napot, 0, 0, "000000000 to 000000008"),
        (Matching::Napot, 0xffff_fffe, 0, "3fffffff8 to 400000000"),
        (Matching::Napot, 0x2000_01ff, 0, "080000000 to 080001000"),
        (Matching::Napot, 0x7fff_ffff, 0, "000000000 to 400000000"),
        (Matching::Napot, 0xffff_ffff, 0, "000000000 to 800000000"),
    ];
    for (matching, address, below, want) in cases {
        bound(tally, matching, address, below, want)?;
    }
    Ok(())
}
