// Calls of a hart, and what is printed of them.
use access::access::{Kind, Reading};
use access::numbered::Numbered;
use access::refusal::Refusal;
use book::spmp_book::SpmpBook;
use grants::resident::ResidentPlan;
use hart::harts::UserHart;
use history::call::Answer;
use memory::memory::Memory;
use std::io;

type SpmpTask = UserHart<ResidentPlan<SpmpBook, 32>>;

// What a call of a hart gave. (The demonstration has the like: a library function promises what it gives, and printing gives nothing.)
pub(crate) fn told<A: Into<Answer>>(rt: &HostRuntime, answer: A) -> io::Result<()> {
    match answer.into() {
        Answer::Done => println!(rt; ": ok"),
        Answer::Value(value) => println!(rt; ": {value:x}"),
        Answer::Declined(refusal) => {
            let number = refusal.number();
            println!(rt; ": refused {number}")
        }
        Answer::Refused(refusal) => refused(rt, refusal),
    }
}

// A refusal, with what a fault carries.
fn refused(rt: &HostRuntime, refusal: Refusal) -> io::Result<()> {
    let number = refusal.number();
    print!(rt; ": refused {number}")?;
    match refusal {
        Refusal::Width | Refusal::Range => println!(rt; ""),
        Refusal::Stopped(fault) | Refusal::NotAdmitted(fault) => {
            let cause = fault.cause;
            let address = fault.address;
            let entry = fault.entry;
            println!(rt; ", cause {cause}, address {address}, entry {entry}")
        }
    }
}

pub(crate) fn read<M: Memory<32>>(
    rt: &HostRuntime,
    task: &SpmpTask,
    memory: &M,
    reading: Reading,
    address: u64,
    width: u64,
) -> io::Result<()> {
    let kind = Kind::from(reading);
    print!(rt; "{kind} of {width} at {address}")?;
    told(rt, task.read(memory, reading, address, width))
}

pub(crate) fn store<M: Memory<32>>(
    rt: &HostRuntime,
    task: &SpmpTask,
    memory: &mut M,
    address: u64,
    width: u64,
    value: u64,
) -> io::Result<()> {
    print!(rt; "store of {width} at {address}, value {value:x}")?;
    told(rt, task.store(memory, address, width, value))
}
