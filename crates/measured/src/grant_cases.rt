// Grants, withdrawals and selections.
use crate::check_cases::text;
use crate::tally::Tally;
use access::access::{Kind, Request};
use access::field_bits::FieldBits;
use book::spmp_book::SpmpBook;
use grants::refusal::GrantRefusal;
use grants::resident::ResidentPlan;
use std::io;

type SpmpPlan = ResidentPlan<SpmpBook, 32>;

// The end of the addresses.
const END: u64 = 1 << 34;

fn outcome(
    tally: &mut Tally,
    name: &str,
    answer: Result<(), GrantRefusal>,
    want: &str,
) -> io::Result<()> {
    tally.answer(name, answer.map(|()| "done"), want)
}

// Grants to one task of a plan that has one region; each case has base, length, rights and what is wanted.
fn refusals(tally: &mut Tally) -> io::Result<()> {
    let cases = [
        (2, 4, 1, "22"),
        (0, 6, 1, "22"),
        (0, 0, 1, "22"),
        (END - 4, 8, 1, "22"),
        (0xffff_ffff_ffff_fffc, 8, 1, "22"),
        (0, 4, 2, "23"),
        (0, 4, 6, "23"),
        (0, 4, 0, "23"),
        (0x1ffc, 8, 1, "24"),
        (0x2ffc, 4, 1, "24"),
        (0x3000, 4, 1, "done"),
        (0x1ffc, 4, 1, "done"),
        (0x3004, END - 0x3004, 1, "25"),
        (END / 2, END / 2, 7, "done"),
    ];
    for (base, length, rights, want) in cases {
        let mut plan: SpmpPlan = ResidentPlan::new(FieldBits::rv32());
        let _ = plan.grant(3, 0x2000, 0x1000, 3);
        let name = format!(in tally.heap(); "grant of {base:x}, {length:x}, {rights}")?;
        outcome(
            tally,
            name.as_str(),
            plan.grant(3, base, length, rights),
            want,
        )?;
    }
    Ok(())
}

// Four tasks with eight regions of two entries each: every entry is taken.
fn full() -> SpmpPlan {
    let mut plan: SpmpPlan = ResidentPlan::new(FieldBits::rv32());
    for task in 0..4 {
        for k in 0..8 {
            let _ = plan.grant(task, 0x100 * k, 12, 1);
        }
    }
    plan
}

// Eight regions are all that a task can hold, and 64 entries all that there are.
fn limits(tally: &mut Tally) -> io::Result<()> {
    let mut plan = full();
    outcome(tally, "a ninth region", plan.grant(0, 0x10000, 4, 1), "26")?;
    outcome(tally, "no entry left", plan.grant(4, 0, 4, 1), "27")?;
    outcome(tally, "a withdrawal", plan.withdraw(0, 0x100), "done")?;
    outcome(tally, "the same again", plan.withdraw(0, 0x100), "28")?;
    outcome(tally, "two entries left", plan.grant(4, 0, 12, 1), "done")?;
    outcome(tally, "a grant to task 16", plan.grant(16, 0, 4, 1), "21")?;
    outcome(tally, "a withdrawal from 16", plan.withdraw(16, 0), "21")?;
    outcome(tally, "a selection of 16", plan.select(16), "21")
}

fn load(
    tally: &mut Tally,
    plan: &SpmpPlan,
    name: &str,
    address: u64,
    want: &str,
) -> io::Result<()> {
    let got = text(
        tally.heap(),
        plan.check(Request::user(Kind::Load, address, 4)),
    )?;
    tally.case(name, got.as_str(), want)
}

// The example layout, granted.
fn example() -> SpmpPlan {
    let mut plan: SpmpPlan = ResidentPlan::new(FieldBits::rv32());
    let _ = plan.grant(0, 0x8000_0000, 0x1000, 5);
    let _ = plan.grant(0, 0x8000_1000, 0x1800, 3);
    let _ = plan.grant(1, 0x1000_0000, 4, 1);
    plan
}

// What tasks may load before and after selections, and after a withdrawal.
fn selections(tally: &mut Tally) -> io::Result<()> {
    let page = 0x8000_0000;
    let across = 0x8000_0ffe;
    let word = 0x1000_0000;
    let nothing = "51 cause 13 address 010000000 entry 64";
    let mut plan = example();
    load(tally, &plan, "nothing selected", word, nothing)?;
    let _ = plan.select(0);
    load(tally, &plan, "task 0 in its page", page, "pass 0")?;
    let partly = "51 cause 13 address 080000ffe entry 0";
    load(tally, &plan, "task 0 across regions", across, partly)?;
    load(tally, &plan, "task 0 at another's", word, nothing)?;
    let _ = plan.select(1);
    load(tally, &plan, "task 1 at its word", word, "pass 3")?;
    let _ = plan.withdraw(1, word);
    load(tally, &plan, "task 1 after withdrawal", word, nothing)
}

pub(crate) fn grants(tally: &mut Tally) -> io::Result<()> {
    refusals(tally)?;
    limits(tally)?;
    selections(tally)
}
