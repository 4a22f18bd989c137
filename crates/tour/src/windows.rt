// The supervisor's accesses to user memory, with SUM clear and in a window.
use crate::calls::told;
use crate::session::SpmpHart;
use access::access::Reading;
use grants::plan::Plan;
use hart::status::Status;
use hart::user_memory::load_through;
use hart::window::Window;
use memory::memory::Memory;
use std::io;

fn load<M: Memory<32>>(
    rt: &HostRuntime,
    hart: &SpmpHart,
    status: &Status,
    memory: &M,
    address: u64,
) -> io::Result<()> {
    let sum = if status.sum() { "set" } else { "clear" };
    print!(rt; "supervisor load of 4 at {address}, SUM {sum}")?;
    told(rt, hart.read(status, memory, Reading::Load, address, 4))
}

// Leaves a pointer to the word at 8 in user memory.
fn put_pointer<M: Memory<32>>(
    rt: &HostRuntime,
    hart: &SpmpHart,
    status: &mut Status,
    memory: &mut M,
) -> io::Result<()> {
    let window = Window::open(status);
    load(rt, hart, window.status(), memory, 8)?;
    print!(rt; "supervisor store of 4 at 16, value 8, in the window")?;
    told(rt, hart.store(window.status(), memory, 16, 4, 8))
}

fn follow<M: Memory<32>>(
    rt: &HostRuntime,
    hart: &SpmpHart,
    status: &mut Status,
    memory: &M,
    pointer: u64,
) -> io::Result<()> {
    print!(rt; "load through the pointer at {pointer}")?;
    told(rt, load_through(hart, status, memory, pointer))?;
    let word = status.word();
    println!(rt; "status word afterwards: {word:08x}")
}

pub(crate) fn windows<M: Memory<32>>(
    rt: &HostRuntime,
    hart: &SpmpHart,
    memory: &mut M,
) -> io::Result<()> {
    println!(rt; "-- the supervisor, and a window on user memory")?;
    let mut status = Status::new(0);
    load(rt, hart, &status, memory, 8)?;
    load(rt, hart, &status, memory, 56)?;
    put_pointer(rt, hart, &mut status, memory)?;
    load(rt, hart, &status, memory, 8)?;
    follow(rt, hart, &mut status, memory, 16)?;
    follow(rt, hart, &mut status, memory, 126)
}
