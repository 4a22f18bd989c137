// A hart leads two tasks beside a memory, one call after the other. (The demonstration prints the like over a plan.)
use crate::calls::{read, store, told};
use crate::windows::windows;
use access::access::Reading;
use access::field_bits::FieldBits;
use book::spmp_book::SpmpBook;
use grants::plan::Plan;
use grants::resident::ResidentPlan;
use hart::harts::SupervisorHart;
use memory::bank::Bank;
use memory::memory::Memory;
use memory::pair::Pair;
use memory::ram::Ram;
use std::io;

pub type SpmpHart = SupervisorHart<ResidentPlan<SpmpBook, 32>>;

fn grant(
    rt: &HostRuntime,
    hart: &mut SpmpHart,
    task: u64,
    base: u64,
    length: u64,
    rights: u64,
) -> io::Result<()> {
    print!(rt; "grant to task {task} of {length} bytes at {base}, rights {rights}")?;
    told(rt, hart.grant(task, base, length, rights))
}

fn withdraw(rt: &HostRuntime, hart: &mut SpmpHart, task: u64, base: u64) -> io::Result<()> {
    print!(rt; "withdraw from task {task} what begins at {base}")?;
    told(rt, hart.withdraw(task, base))
}

fn select(rt: &HostRuntime, hart: &mut SpmpHart, task: u64) -> io::Result<()> {
    print!(rt; "select task {task}")?;
    told(rt, hart.select(task))
}

fn grants(rt: &HostRuntime, hart: &mut SpmpHart) -> io::Result<()> {
    println!(rt; "-- a hart: regions for tasks 0 and 1 in 64 bytes of RAM and a bank behind it")?;
    grant(rt, hart, 0, 0, 32, 3)?;
    grant(rt, hart, 0, 64, 12, 3)?;
    grant(rt, hart, 1, 32, 16, 5)?;
    grant(rt, hart, 0, 16, 8, 1)?;
    grant(rt, hart, 16, 0, 32, 3)
}

// Task 0 uses its own regions, and meets the end of one and another task's.
fn first_task<M: Memory<32>>(
    rt: &HostRuntime,
    hart: SpmpHart,
    memory: &mut M,
) -> io::Result<SpmpHart> {
    println!(rt; "-- task 0 is entered")?;
    let task = hart.enter();
    store(rt, &task, memory, 8, 4, 0xcafe)?;
    read(rt, &task, memory, Reading::Load, 8, 4)?;
    read(rt, &task, memory, Reading::Load, 32, 4)?;
    read(rt, &task, memory, Reading::Load, 30, 4)?;
    read(rt, &task, memory, Reading::Fetch, 8, 4)?;
    store(rt, &task, memory, 68, 4, 0x1234)?;
    read(rt, &task, memory, Reading::Load, 68, 4)?;
    store(rt, &task, memory, 68, 1, 0xff)?;
    read(rt, &task, memory, Reading::Load, 0, 3)?;
    Ok(task.trap())
}

// Task 1 can fetch from its region and not store there.
fn second_task<M: Memory<32>>(
    rt: &HostRuntime,
    hart: SpmpHart,
    memory: &mut M,
) -> io::Result<SpmpHart> {
    println!(rt; "-- task 1 is entered")?;
    let task = hart.enter();
    read(rt, &task, memory, Reading::Fetch, 32, 4)?;
    store(rt, &task, memory, 32, 4, 1)?;
    read(rt, &task, memory, Reading::Load, 8, 4)?;
    Ok(task.trap())
}

// Once its region is withdrawn, the task's load faults.
fn withdrawal<M: Memory<32>>(
    rt: &HostRuntime,
    mut hart: SpmpHart,
    memory: &mut M,
) -> io::Result<SpmpHart> {
    println!(rt; "-- task 0 loses the region that it stored to")?;
    withdraw(rt, &mut hart, 0, 0)?;
    withdraw(rt, &mut hart, 0, 0)?;
    select(rt, &mut hart, 0)?;
    let task = hart.enter();
    read(rt, &task, memory, Reading::Load, 8, 4)?;
    read(rt, &task, memory, Reading::Load, 68, 4)?;
    Ok(task.trap())
}

fn lead<M: Memory<32>>(rt: &HostRuntime, memory: &mut M) -> io::Result<()> {
    let mut hart: SpmpHart = SupervisorHart::new(FieldBits::rv32());
    grants(rt, &mut hart)?;
    println!(rt; "-- entered before any selection")?;
    let task = hart.enter();
    read(rt, &task, memory, Reading::Load, 8, 4)?;
    hart = task.trap();
    select(rt, &mut hart, 0)?;
    hart = first_task(rt, hart, memory)?;
    windows(rt, &hart, memory)?;
    select(rt, &mut hart, 1)?;
    hart = second_task(rt, hart, memory)?;
    let _ = withdrawal(rt, hart, memory)?;
    Ok(())
}

pub(crate) fn session(rt: &HostRuntime) -> io::Result<()> {
    let bits = FieldBits::rv32();
    let mut buffer = [0u8; 64];
    let mut memory = Pair::new(bits, Ram::new(bits, &mut buffer), Bank::new(bits));
    lead(rt, &mut memory)
}
