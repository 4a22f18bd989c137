// What register writes leave.
use crate::tally::Tally;
use book::spmp_book::SpmpBook;
use std::io;
use table::refusal::RegisterRefusal;
use table::table::Table;
use text::fixed::Hex8;

fn word(
    tally: &mut Tally,
    name: &str,
    answer: Result<u32, RegisterRefusal>,
    want: &str,
) -> io::Result<()> {
    tally.answer(name, answer.map(|word| Hex8::new(word)), want)
}

// Writes to the example table and what they leave: byte 0x80 is not legal, so the byte stays; bits 5 and 6 do not.
pub(crate) fn registers(tally: &mut Tally, table: &mut Table<SpmpBook, 32>) -> io::Result<()> {
    let _ = table.write_config(0, 0x7180_607d);
    word(
        tally,
        "config 0 after 7180607d",
        table.read_config(0),
        "110b001d",
    )?;
    let _ = table.write_config(15, 0x9f9f_9f9f);
    word(
        tally,
        "config 15 after 9f9f9f9f",
        table.read_config(15),
        "9f9f9f9f",
    )?;
    word(tally, "config 16", table.read_config(16), "31")?;
    word(tally, "address 3", table.read_address(3), "04000000")?;
    word(tally, "address 64", table.read_address(64), "31")?;
    let _ = table.write_switch(1, 0x8000_0001);
    word(
        tally,
        "switch 0 after switch 1 was written",
        table.read_switch(0),
        "00000007",
    )?;
    word(
        tally,
        "switch 1 after 80000001",
        table.read_switch(1),
        "80000001",
    )?;
    word(tally, "switch 2", table.read_switch(2), "31")
}
