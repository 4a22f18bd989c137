// A register table, tasks and memories at work, from the first register write to the last stored byte.
#![tactic(auto)]

mod memories;
mod show;
mod shown;
mod tasks;

use access::access::{Kind, Request};
use access::field_bits::FieldBits;
use book::guest_book::GuestBook;
use book::spmp_book::SpmpBook;
use memories::memories;
use show::{Register, judge, note, read_back, set, tell};
use std::io;
use table::table::Table;
use tasks::tasks;

type SpmpTable = Table<SpmpBook, 32>;

// Two regions of task 0 and one of task 1: NAPOT, TOR over the entry below, NA4.
fn set_up(rt: &HostRuntime, table: &mut SpmpTable) -> io::Result<()> {
    println!(rt; "-- set up: two regions of task 0, one of task 1")?;
    set(rt, table, Register::Address, 0, 0x2000_01ff)?;
    set(rt, table, Register::Address, 1, 0x2000_0400)?;
    set(rt, table, Register::Address, 2, 0x2000_0a00)?;
    set(rt, table, Register::Address, 3, 0x0400_0000)?;
    set(rt, table, Register::Config, 0, 0x110b_001d)?;
    set(rt, table, Register::Switch, 0, 0b0111)?;
    set(rt, table, Register::Address, 64, 0)?;
    println!(rt; "-- read back")?;
    read_back(rt, table, Register::Config, 0)?;
    read_back(rt, table, Register::Address, 2)?;
    read_back(rt, table, Register::Switch, 0)
}

fn judge_modes(rt: &HostRuntime, table: &SpmpTable) -> io::Result<()> {
    println!(rt; "-- accesses in each mode")?;
    judge(rt, table, Request::user(Kind::Load, 0x8000_0000, 4))?;
    judge(rt, table, Request::user(Kind::Fetch, 0x8000_0ffe, 2))?;
    judge(rt, table, Request::user(Kind::Store, 0x8000_0000, 4))?;
    judge(rt, table, Request::user(Kind::Load, 0x8000_0ffe, 4))?;
    judge(rt, table, Request::user(Kind::Store, 0x8000_1000, 8))?;
    judge(rt, table, Request::user(Kind::Load, 0x1000_0000, 4))?;
    judge(
        rt,
        table,
        Request::supervisor(false, Kind::Load, 0x8000_0000, 4),
    )?;
    judge(
        rt,
        table,
        Request::supervisor(true, Kind::Load, 0x8000_0000, 4),
    )?;
    judge(
        rt,
        table,
        Request::supervisor(true, Kind::Fetch, 0x8000_0000, 4),
    )?;
    judge(
        rt,
        table,
        Request::supervisor(false, Kind::Load, 0x1000_0000, 4),
    )?;
    judge(rt, table, Request::machine(Kind::Store, 0x8000_0000, 4))?;
    judge(rt, table, Request::user(Kind::Load, 0x8000_0000, 3))?;
    judge(rt, table, Request::user(Kind::Load, 0x3_ffff_fffd, 4))
}

fn move_below(rt: &HostRuntime, table: &mut SpmpTable) -> io::Result<()> {
    println!(rt; "-- a write to address 1 moves the TOR entry above it")?;
    judge(rt, table, Request::user(Kind::Store, 0x8000_1000, 4))?;
    set(rt, table, Register::Address, 1, 0x2000_0500)?;
    judge(rt, table, Request::user(Kind::Store, 0x8000_1000, 4))?;
    judge(rt, table, Request::user(Kind::Store, 0x8000_13fe, 4))?;
    judge(rt, table, Request::user(Kind::Store, 0x8000_1400, 4))?;
    println!(rt; "-- switched off, entry 1 still lends its address")?;
    set(rt, table, Register::Switch, 0, 0b0100)?;
    judge(rt, table, Request::user(Kind::Store, 0x8000_1400, 4))?;
    judge(rt, table, Request::user(Kind::Load, 0x8000_0000, 4))
}

fn keep_legal(rt: &HostRuntime, table: &mut SpmpTable) -> io::Result<()> {
    println!(rt; "-- byte 80 is not legal, so entry 2 keeps 0b; bits 5 and 6 are cleared")?;
    set(rt, table, Register::Config, 0, 0x1180_607d)?;
    read_back(rt, table, Register::Config, 0)?;
    read_back(rt, table, Register::Config, 16)
}

fn save_and_restore(rt: &HostRuntime, table: &SpmpTable) -> io::Result<()> {
    println!(rt; "-- saved, and restored into another table")?;
    let mut short = [0u32; 81];
    tell(rt, "save into 81 words", table.save(&mut short))?;
    let mut words = [0u32; 82];
    tell(rt, "save into 82 words", table.save(&mut words))?;
    note(rt, "word 1", words[1])?;
    note(rt, "word 64", words[64])?;
    note(rt, "word 80", words[80])?;
    let mut other: SpmpTable = Table::new(FieldBits::rv32());
    tell(rt, "restore", other.restore(&words))?;
    read_back(rt, &other, Register::Config, 0)?;
    judge(rt, &other, Request::user(Kind::Store, 0x8000_1400, 4))?;
    println!(rt; "-- a third takes over the registers of the second")?;
    let mut third: SpmpTable = Table::new(FieldBits::rv32());
    third.copy_registers(&other);
    judge(rt, &third, Request::user(Kind::Store, 0x8000_1400, 4))
}

fn guests(rt: &HostRuntime) -> io::Result<()> {
    println!(rt; "-- the guest book: S and U alike, and nothing where no entry matches")?;
    let mut table: Table<GuestBook, 32> = Table::new(FieldBits::rv32());
    set(rt, &mut table, Register::Address, 0, 0x2000_01ff)?;
    set(rt, &mut table, Register::Config, 0, 0x1d)?;
    set(rt, &mut table, Register::Switch, 0, 0b0001)?;
    judge(
        rt,
        &table,
        Request::supervisor(false, Kind::Fetch, 0x8000_0000, 4),
    )?;
    judge(
        rt,
        &table,
        Request::supervisor(false, Kind::Load, 0x1000_0000, 4),
    )
}

fn main(rt: HostRuntime) -> io::Result<()> {
    let mut table: SpmpTable = Table::new(FieldBits::rv32());
    set_up(&rt, &mut table)?;
    judge_modes(&rt, &table)?;
    move_below(&rt, &mut table)?;
    keep_legal(&rt, &mut table)?;
    save_and_restore(&rt, &table)?;
    guests(&rt)?;
    tasks(&rt)?;
    memories(&rt)
}
