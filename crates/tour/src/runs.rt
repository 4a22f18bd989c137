// Runs: the same calls on two rule books and two memories.
use access::field_bits::FieldBits;
use book::book::RuleBook;
use book::guest_book::GuestBook;
use book::spmp_book::SpmpBook;
use grants::call::PlanCall;
use grants::plan::Plan;
use grants::resident::ResidentPlan;
use history::call::{Access, Answer, Call};
use memory::bank::Bank;
use memory::memory::Memory;
use memory::ram::Ram;
use run::runs::run;
use run::turn::Turn;

const LOAD: Access = Access::Load {
    address: 8,
    width: 4,
};

// A task's region, an access of the supervisor, one of a task before it is entered, and a session of the task.
fn calls() -> [Call; 9] {
    [
        Call::Plan(PlanCall::Grant {
            task: 2,
            base: 0,
            length: 16,
            rights: 3,
        }),
        Call::Plan(PlanCall::Select { task: 2 }),
        Call::Supervisor {
            sum: false,
            access: Access::Store {
                address: 32,
                width: 4,
                value: 7,
            },
        },
        Call::Task(LOAD),
        Call::Enter,
        Call::Task(Access::Store {
            address: 8,
            width: 4,
            value: 0xbeef,
        }),
        Call::Task(LOAD),
        Call::Task(Access::Fetch {
            address: 8,
            width: 4,
        }),
        Call::Trap,
    ]
}

fn show(rt: &HostRuntime, turn: Turn) -> anyhow::Result<()> {
    match turn.answer {
        None => println!(rt; "not allowed")?,
        Some(Answer::Value(value)) => println!(rt; "ok {value:x}")?,
        Some(answer) => match answer.number() {
            None => println!(rt; "ok")?,
            Some(number) => println!(rt; "refused {number}")?,
        },
    }
    Ok(())
}

fn show_all(rt: &HostRuntime, turns: Vec<Turn>) -> anyhow::Result<()> {
    for turn in turns {
        show(rt, turn)?;
    }
    Ok(())
}

// The same calls under a rule book, beside a memory.
fn run_of<B: RuleBook, M: Memory<32>>(
    rt: &HostRuntime,
    title: &str,
    memory: &mut M,
) -> anyhow::Result<()> {
    println!(rt; "-- {title}")?;
    let bits = FieldBits::rv32();
    let turns = run::<ResidentPlan<B, 32>, M, 32>(rt.alloc(), bits, memory, &calls())?;
    show_all(rt, turns)
}

pub(crate) fn runs(rt: &HostRuntime) -> anyhow::Result<()> {
    let bits = FieldBits::rv32();
    let mut buffer = [0u8; 64];
    let mut ram = Ram::new(bits, &mut buffer);
    run_of::<SpmpBook, _>(rt, "a run: SPMP book, RAM", &mut ram)?;
    let mut bank = Bank::new(bits);
    run_of::<GuestBook, _>(rt, "the same run: guest book, bank", &mut bank)
}
