// Verdicts on a table of the SPMP book.
use crate::register_cases::registers;
use crate::tally::Tally;
use access::access::{Kind, Request};
use access::field_bits::FieldBits;
use access::numbered::Numbered;
use access::refusal::Refusal;
use book::spmp_book::SpmpBook;
use std::alloc::{AllocError, Global};
use std::io;
use table::refusal::RegisterRefusal;
use table::table::Table;

type SpmpTable = Table<SpmpBook, 32>;

// The table of the example layout, the entries of task 0 switched on.
fn example() -> Result<SpmpTable, RegisterRefusal> {
    let mut table: SpmpTable = Table::new(FieldBits::rv32());
    table.write_config(0, 0x110b_001d)?;
    table.write_address(0, 0x2000_01ff)?;
    table.write_address(1, 0x2000_0400)?;
    table.write_address(2, 0x2000_0a00)?;
    table.write_address(3, 0x0400_0000)?;
    table.write_switch(0, 7)?;
    Ok(table)
}

// As the cases have it: the programs that print a refusal differ in its marks.
pub(crate) fn text(heap: Global, answer: Result<u8, Refusal>) -> Result<String, AllocError> {
    match answer {
        Ok(entry) => format!(in heap; "pass {entry}"),
        Err(refusal) => {
            let number = refusal.number();
            match refusal {
                Refusal::Width | Refusal::Range => format!(in heap; "{number}"),
                Refusal::Stopped(fault) | Refusal::NotAdmitted(fault) => {
                    let cause = fault.cause;
                    let address = fault.address;
                    let entry = fault.entry;
                    format!(in heap; "{number} cause {cause} address {address:09x} entry {entry}")
                }
            }
        }
    }
}

fn verdict(tally: &mut Tally, table: &SpmpTable, request: Request, want: &str) -> io::Result<()> {
    let Request {
        mode,
        sum,
        kind,
        address,
        width,
    } = request;
    let name = format!(in tally.heap();
        "{mode:?} {kind:?} of {width} at {address:09x}, SUM {sum}"
    )?;
    let got = text(tally.heap(), table.check(request))?;
    tally.case(name.as_str(), got.as_str(), want)
}

fn verdicts(tally: &mut Tally, table: &SpmpTable, cases: &[(Request, &str)]) -> io::Result<()> {
    for (request, want) in cases {
        verdict(tally, table, *request, want)?;
    }
    Ok(())
}

// At the edges of the entries, in mode U.
fn user_verdicts(tally: &mut Tally, table: &SpmpTable) -> io::Result<()> {
    let cases = [
        (
            Request::user(Kind::Load, 0x8000_0ffe, 4),
            "51 cause 13 address 080000ffe entry 0",
        ),
        (Request::user(Kind::Load, 0x8000_0ffc, 4), "pass 0"),
        (
            Request::user(Kind::Load, 0x7fff_fffe, 4),
            "51 cause 13 address 07ffffffe entry 0",
        ),
        (Request::user(Kind::Fetch, 0x8000_0ffe, 2), "pass 0"),
        (
            Request::user(Kind::Store, 0x8000_0ff8, 8),
            "51 cause 15 address 080000ff8 entry 0",
        ),
        (Request::user(Kind::Store, 0x8000_27f8, 8), "pass 2"),
        (
            Request::user(Kind::Store, 0x8000_27fc, 8),
            "51 cause 15 address 0800027fc entry 2",
        ),
        (
            Request::user(Kind::Fetch, 0x8000_2800, 2),
            "51 cause 12 address 080002800 entry 64",
        ),
        (
            Request::user(Kind::Load, 0x1000_0000, 4),
            "51 cause 13 address 010000000 entry 64",
        ),
    ];
    verdicts(tally, table, &cases)
}

// On the entries of a task and outside, in mode S.
fn supervisor_verdicts(tally: &mut Tally, table: &SpmpTable) -> io::Result<()> {
    let cases = [
        (
            Request::supervisor(false, Kind::Load, 0x1000_0000, 4),
            "pass 64",
        ),
        (
            Request::supervisor(false, Kind::Load, 0x8000_1000, 4),
            "51 cause 13 address 080001000 entry 2",
        ),
        (
            Request::supervisor(true, Kind::Store, 0x8000_1000, 4),
            "pass 2",
        ),
        (
            Request::supervisor(true, Kind::Fetch, 0x8000_0000, 2),
            "51 cause 12 address 080000000 entry 0",
        ),
    ];
    verdicts(tally, table, &cases)
}

// At the end of the addresses, and widths that no access has.
fn ranges(tally: &mut Tally, table: &SpmpTable) -> io::Result<()> {
    let cases = [
        (
            Request::supervisor(false, Kind::Load, 0x3_ffff_fff8, 8),
            "pass 64",
        ),
        (
            Request::supervisor(false, Kind::Load, 0x3_ffff_fff9, 8),
            "42",
        ),
        (
            Request::supervisor(false, Kind::Load, 0xffff_ffff_ffff_ffff, 8),
            "42",
        ),
        (
            Request::supervisor(false, Kind::Load, 0xffff_ffff_ffff_ffff, 0),
            "41",
        ),
        (
            Request::supervisor(false, Kind::Store, 0, 0xffff_ffff_ffff_ffff),
            "41",
        ),
        (Request::supervisor(false, Kind::Fetch, 0, 8), "41"),
        (Request::supervisor(false, Kind::Fetch, 0, 1), "41"),
        (Request::supervisor(false, Kind::Store, 0, 16), "41"),
    ];
    verdicts(tally, table, &cases)
}

// The example table, judged and then written to.
pub(crate) fn example_table(tally: &mut Tally) -> io::Result<()> {
    let Ok(mut table) = example() else {
        return tally.case("the example table", "refused", "made");
    };
    user_verdicts(tally, &table)?;
    supervisor_verdicts(tally, &table)?;
    ranges(tally, &table)?;
    registers(tally, &mut table)
}
