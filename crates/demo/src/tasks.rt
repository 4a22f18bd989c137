// Tasks with regions: grants, selections and a withdrawal.
use crate::show::{tell, verdict};
use access::access::{Kind, Request};
use access::field_bits::FieldBits;
use book::spmp_book::SpmpBook;
use grants::resident::ResidentPlan;
use std::io;

type SpmpPlan = ResidentPlan<SpmpBook, 32>;

fn grant(
    rt: &HostRuntime,
    plan: &mut SpmpPlan,
    task: u64,
    base: u64,
    length: u64,
    rights: u64,
) -> io::Result<()> {
    print!(rt; "grant to task {task} of {length} bytes at {base:09x}, rights {rights}")?;
    tell(rt, "", plan.grant(task, base, length, rights))
}

fn withdraw(rt: &HostRuntime, plan: &mut SpmpPlan, task: u64, base: u64) -> io::Result<()> {
    print!(rt; "withdraw from task {task} what begins at {base:09x}")?;
    tell(rt, "", plan.withdraw(task, base))
}

fn select(rt: &HostRuntime, plan: &mut SpmpPlan, task: u64) -> io::Result<()> {
    print!(rt; "select task {task}")?;
    tell(rt, "", plan.select(task))
}

fn judge(rt: &HostRuntime, plan: &SpmpPlan, request: Request) -> io::Result<()> {
    verdict(rt, request, plan.check(request))
}

fn grants(rt: &HostRuntime, plan: &mut SpmpPlan) -> io::Result<()> {
    println!(rt; "-- the regions of tasks 0 and 1, as grants")?;
    grant(rt, plan, 0, 0x8000_0000, 0x1000, 5)?;
    grant(rt, plan, 0, 0x8000_1000, 0x1800, 3)?;
    grant(rt, plan, 1, 0x1000_0000, 4, 1)?;
    grant(rt, plan, 0, 0x8000_0ffc, 8, 1)?;
    grant(rt, plan, 16, 0x8000_0000, 0x1000, 5)
}

fn selections(rt: &HostRuntime, plan: &mut SpmpPlan) -> io::Result<()> {
    println!(rt; "-- no entry is active before a task is selected")?;
    judge(rt, plan, Request::user(Kind::Load, 0x8000_0000, 4))?;
    select(rt, plan, 0)?;
    judge(rt, plan, Request::user(Kind::Load, 0x8000_0000, 4))?;
    judge(rt, plan, Request::user(Kind::Store, 0x8000_1000, 8))?;
    judge(rt, plan, Request::user(Kind::Load, 0x1000_0000, 4))?;
    select(rt, plan, 1)?;
    judge(rt, plan, Request::user(Kind::Load, 0x8000_0000, 4))?;
    judge(rt, plan, Request::user(Kind::Load, 0x1000_0000, 4))
}

fn withdrawal(rt: &HostRuntime, plan: &mut SpmpPlan) -> io::Result<()> {
    println!(rt; "-- a withdrawn region's entries are free for another task")?;
    withdraw(rt, plan, 0, 0x8000_1000)?;
    withdraw(rt, plan, 0, 0x8000_1000)?;
    grant(rt, plan, 1, 0x2000_0000, 0x100, 3)?;
    judge(rt, plan, Request::user(Kind::Store, 0x2000_0000, 4))
}

pub(crate) fn tasks(rt: &HostRuntime) -> io::Result<()> {
    let mut plan: SpmpPlan = ResidentPlan::new(FieldBits::rv32());
    grants(rt, &mut plan)?;
    selections(rt, &mut plan)?;
    withdrawal(rt, &mut plan)
}
