// What the demonstration prints of a call.
use crate::shown::Shown;
use access::access::Request;
use access::numbered::Numbered;
use access::refusal::Refusal;
use book::book::RuleBook;
use std::{fmt, io};
use table::table::Table;

// Whether a call was accepted, or the number of its refusal. (The tour of harts has the like: a library function promises what it gives,
// and printing gives nothing.)
pub(crate) fn tell<R: Numbered>(
    rt: &HostRuntime,
    call: &str,
    answer: Result<(), R>,
) -> io::Result<()> {
    match answer {
        Ok(()) => println!(rt; "{call}: ok"),
        Err(refusal) => {
            let number = refusal.number();
            println!(rt; "{call}: refused {number}")
        }
    }
}

// The registers of a table, by kind. (As closures, each call would write the method and its arguments out.)
#[derive(Clone, Copy)]
pub enum Register {
    Address,
    Config,
    Switch,
}

impl fmt::Display for Register {
    fn fmt<W: fmt::Write>(&self, f: &mut fmt::Formatter<W>) -> fmt::Result {
        f.write_str(match self {
            Register::Address => "address",
            Register::Config => "config",
            Register::Switch => "switch",
        })
    }
}

// Writes register n.
pub(crate) fn set<B: RuleBook>(
    rt: &HostRuntime,
    table: &mut Table<B, 32>,
    register: Register,
    n: usize,
    value: u32,
) -> io::Result<()> {
    let answer = match register {
        Register::Address => table.write_address(n, value),
        Register::Config => table.write_config(n, value),
        Register::Switch => table.write_switch(n, value),
    };
    print!(rt; "{register} {n} = {value:08x}")?;
    tell(rt, "", answer)
}

// A word, by name.
pub(crate) fn note(rt: &HostRuntime, name: &str, word: u32) -> io::Result<()> {
    println!(rt; "{name}: {word:08x}")
}

// Reads register n.
pub(crate) fn read_back<B: RuleBook>(
    rt: &HostRuntime,
    table: &Table<B, 32>,
    register: Register,
    n: usize,
) -> io::Result<()> {
    let answer = match register {
        Register::Address => table.read_address(n),
        Register::Config => table.read_config(n),
        Register::Switch => table.read_switch(n),
    };
    print!(rt; "{register} {n}")?;
    match answer {
        Ok(value) => note(rt, "", value),
        Err(refusal) => tell(rt, "", Err(refusal)),
    }
}

// A check.
pub(crate) fn judge<B: RuleBook>(
    rt: &HostRuntime,
    table: &Table<B, 32>,
    request: Request,
) -> io::Result<()> {
    verdict(rt, request, table.check(request))
}

pub(crate) fn verdict(
    rt: &HostRuntime,
    request: Request,
    answer: Result<u8, Refusal>,
) -> io::Result<()> {
    let shown = Shown(request);
    match answer {
        Ok(entry) => println!(rt; "{shown}: pass, entry {entry}"),
        Err(refusal) => {
            print!(rt; "{shown}")?;
            refused(rt, refusal)
        }
    }
}

fn refused(rt: &HostRuntime, refusal: Refusal) -> io::Result<()> {
    let number = refusal.number();
    print!(rt; ": refused {number}")?;
    match refusal {
        Refusal::Width | Refusal::Range => println!(rt; ""),
        Refusal::Stopped(fault) | Refusal::NotAdmitted(fault) => {
            let cause = fault.cause;
            let address = fault.address;
            let entry = fault.entry;
            println!(rt; ", cause {cause}, address {address:09x}, entry {entry}")
        }
    }
}
