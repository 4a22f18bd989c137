// One call of a run.
ghost use Rattle.std.specs.Prelude.{◌≡◌, true, false};
ghost use Rattle.memory.specs.Meaning.{MemoryMeaning};
ghost use Rattle.history.specs.Histories.{History, allowed};
ghost use Rattle.run.specs.Standing.{plan_of, is_user, At};
ghost use Rattle.run.specs.Turns.{was_made, with_call, NotMade};

use crate::accesses::{supervisor_access, task_access};
use crate::hart_state::Hart;
use crate::plan_calls::plan_call;
use grants::plan::Plan;
use hart::harts::{SupervisorHart, UserHart};
use history::call::{Answer, Call};
use memory::memory::Memory;

// The call on a hart in supervisor state.
fn play_supervisor<P: Plan<F>, M: Memory<F>, const F: u32>(
    mut hart: SupervisorHart<P>,
    memory: &mut M,
    call: Call,
) -> (Hart<P>, Option<Answer>)
    ensures made { was_made result.1 ≡ allowed false call }
    ensures follows { (start : MemoryMeaning) (h : History) → At F P.Plan.book P.Plan.plan P.Plan.stands start hart.plan false (M.Memory.meaning memory.old) h → At F P.Plan.book P.Plan.plan P.Plan.stands start (plan_of result.0) (is_user result.0) (M.Memory.meaning memory.new) (with_call call result.1 h) }
    ensures otherwise { NotMade result.1 hart.plan (plan_of result.0) false (is_user result.0) memory.old memory.new }
    ensures borrows { M.Memory.lenders memory.new ≡ M.Memory.lenders memory.old }
{
    match call {
        Call::Plan(order) => {
            let answer = plan_call(&mut hart, order);
            (Hart::Supervisor(hart), Some(answer))
        }
        Call::Supervisor { sum, access } => {
            let answer = supervisor_access(&hart, memory, sum, access);
            (Hart::Supervisor(hart), Some(answer))
        }
        Call::Enter => (Hart::User(hart.enter()), Some(Answer::Done)),
        Call::Trap => (Hart::Supervisor(hart), None),
        Call::Task(_) => (Hart::Supervisor(hart), None),
    }
}

// The call on a hart in user state.
fn play_user<P: Plan<F>, M: Memory<F>, const F: u32>(
    hart: UserHart<P>,
    memory: &mut M,
    call: Call,
) -> (Hart<P>, Option<Answer>)
    ensures made { was_made result.1 ≡ allowed true call }
    ensures follows { (start : MemoryMeaning) (h : History) → At F P.Plan.book P.Plan.plan P.Plan.stands start hart.plan true (M.Memory.meaning memory.old) h → At F P.Plan.book P.Plan.plan P.Plan.stands start (plan_of result.0) (is_user result.0) (M.Memory.meaning memory.new) (with_call call result.1 h) }
    ensures otherwise { NotMade result.1 hart.plan (plan_of result.0) true (is_user result.0) memory.old memory.new }
    ensures borrows { M.Memory.lenders memory.new ≡ M.Memory.lenders memory.old }
{
    match call {
        Call::Task(access) => {
            let answer = task_access(&hart, memory, access);
            (Hart::User(hart), Some(answer))
        }
        Call::Trap => (Hart::Supervisor(hart.trap()), Some(Answer::Done)),
        Call::Plan(_) => (Hart::User(hart), None),
        Call::Supervisor { .. } => (Hart::User(hart), None),
        Call::Enter => (Hart::User(hart), None),
    }
}

impl<P> Hart<P> {
    // Makes the call if the hart's state allows it: the hart then, and the answer.
    pub fn play<M: Memory<F>, const F: u32>(
        self,
        memory: &mut M,
        call: Call,
    ) -> (Hart<P>, Option<Answer>)
    where
        P: Plan<F>,
        ensures made { was_made result.1 ≡ allowed (is_user self) call }
        ensures follows { (start : MemoryMeaning) (h : History) → At F P.Plan.book P.Plan.plan P.Plan.stands start (plan_of self) (is_user self) (M.Memory.meaning memory.old) h → At F P.Plan.book P.Plan.plan P.Plan.stands start (plan_of result.0) (is_user result.0) (M.Memory.meaning memory.new) (with_call call result.1 h) }
        ensures otherwise { NotMade result.1 (plan_of self) (plan_of result.0) (is_user self) (is_user result.0) memory.old memory.new }
        ensures borrows { M.Memory.lenders memory.new ≡ M.Memory.lenders memory.old }
    {
        match self {
            Hart::Supervisor(hart) => play_supervisor(hart, memory, call),
            Hart::User(hart) => play_user(hart, memory, call),
        }
    }
}
