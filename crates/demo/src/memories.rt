// The three memories at work.
use crate::show::tell;
use access::access::{Kind, Reading};
use access::field_bits::FieldBits;
use memory::bank::Bank;
use memory::memory::Memory;
use memory::pair::Pair;
use memory::ram::Ram;
use std::io;

// Stores a value and says how it was answered.
fn store<M: Memory<32>>(
    rt: &HostRuntime,
    memory: &mut M,
    address: u64,
    width: u64,
    value: u64,
) -> io::Result<()> {
    let answer = memory.store(address, width, value);
    print!(rt; "store of {width} at {address}, value {value:x}")?;
    tell(rt, "", answer)
}

fn read<M: Memory<32>>(
    rt: &HostRuntime,
    memory: &M,
    reading: Reading,
    address: u64,
    width: u64,
) -> io::Result<()> {
    let kind = Kind::from(reading);
    print!(rt; "{kind} of {width} at {address}")?;
    match memory.read(reading, address, width) {
        Ok(value) => println!(rt; ": {value:x}"),
        Err(refusal) => tell(rt, "", Err(refusal)),
    }
}

fn ram(rt: &HostRuntime, buffer: &mut [u8]) -> io::Result<()> {
    println!(rt; "-- RAM over 16 bytes of the caller's")?;
    let mut ram = Ram::new(FieldBits::rv32(), buffer);
    store(rt, &mut ram, 3, 4, 0xdead_beef)?;
    read(rt, &ram, Reading::Load, 3, 4)?;
    read(rt, &ram, Reading::Load, 4, 2)?;
    read(rt, &ram, Reading::Fetch, 5, 2)?;
    store(rt, &mut ram, 12, 8, 1)?;
    store(rt, &mut ram, 0, 3, 1)
}

fn bank(rt: &HostRuntime) -> io::Result<()> {
    println!(rt; "-- a register bank: words only")?;
    let mut bank: Bank<32> = Bank::new(FieldBits::rv32());
    read(rt, &bank, Reading::Load, 60, 4)?;
    store(rt, &mut bank, 60, 4, 0x1234_5678_9abc_def0)?;
    read(rt, &bank, Reading::Load, 60, 4)?;
    store(rt, &mut bank, 60, 1, 0xff)?;
    store(rt, &mut bank, 62, 4, 0xff)?;
    read(rt, &bank, Reading::Fetch, 60, 4)
}

fn pair(rt: &HostRuntime, buffer: &mut [u8]) -> io::Result<()> {
    println!(rt; "-- the bank behind the RAM")?;
    let bits = FieldBits::rv32();
    let mut pair = Pair::new(bits, Ram::new(bits, buffer), Bank::new(bits));
    let size = pair.size();
    println!(rt; "size {size}")?;
    store(rt, &mut pair, 8, 8, 0x0102_0304_0506_0708)?;
    store(rt, &mut pair, 16, 4, 0xcafe)?;
    read(rt, &pair, Reading::Load, 16, 4)?;
    store(rt, &mut pair, 14, 4, 1)?;
    store(rt, &mut pair, 16, 1, 1)?;
    read(rt, &pair, Reading::Load, 80, 4)
}

pub(crate) fn memories(rt: &HostRuntime) -> io::Result<()> {
    let mut buffer = [0u8; 16];
    ram(rt, &mut buffer)?;
    bank(rt)?;
    pair(rt, &mut buffer)?;
    print!(rt; "the caller's bytes:")?;
    for byte in buffer {
        print!(rt; " {byte:02x}")?;
    }
    println!(rt; "")
}
