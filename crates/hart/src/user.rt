// A hart in user mode: the accesses of the selected task, and the trap that ends them.
ghost use Rattle.std.specs.Prelude.{◌≡◌, false, List};
ghost use Rattle.access.specs.Kinds.{kind_of};
ghost use Rattle.access.specs.declared.access.Mode.{Mode};
ghost use Rattle.memory.specs.Effects.{value_at};
ghost use Rattle.grants.specs.declared.call.PlanCall.{PlanCall};
ghost use Rattle.hart.specs.Accesses.{AccessAnswer, after_store};
ghost use Rattle.hart.specs.Tasks.{TaskPasses, StoppedUnselected};

use super::harts::{SupervisorHart, UserHart};
use super::transfers;
use access::access::{Kind, Reading, Request};
use access::refusal::Refusal;
use grants::plan::Plan;
use memory::memory::Memory;

impl<P> UserHart<P> {
    // Loads a value for the task, or fetches an instruction.
    pub fn read<M: Memory<F>, const F: u32>(
        &self,
        memory: &M,
        reading: Reading,
        address: u64,
        width: u64,
    ) -> Result<u64, Refusal>
    where
        P: Plan<F>,
        ensures answer { (cs : List PlanCall) → P.Plan.stands self.now.plan cs → AccessAnswer F P.Plan.book (P.Plan.plan.entries cs) (M.Memory.meaning memory.now) Mode.User false (kind_of reading) address width (value_at (M.Memory.meaning memory.now).byte address width) result }
        ensures passes { (cs : List PlanCall) → P.Plan.stands self.now.plan cs → TaskPasses F P.Plan.plan cs (M.Memory.meaning memory.now) (kind_of reading) address width result }
        ensures unselected { (cs : List PlanCall) → P.Plan.stands self.now.plan cs → StoppedUnselected F P.Plan.plan cs (kind_of reading) address width result }
    {
        let request = Request::user(reading.into(), address, width);
        transfers::read(&self.plan, memory, reading, request)
    }

    // Stores the low bytes of a value for the task.
    pub fn store<M: Memory<F>, const F: u32>(
        &self,
        memory: &mut M,
        address: u64,
        width: u64,
        value: u64,
    ) -> Result<(), Refusal>
    where
        P: Plan<F>,
        ensures answer { (cs : List PlanCall) → P.Plan.stands self.now.plan cs → AccessAnswer F P.Plan.book (P.Plan.plan.entries cs) (M.Memory.meaning memory.old) Mode.User false Kind.Store address width tt result }
        ensures passes { (cs : List PlanCall) → P.Plan.stands self.now.plan cs → TaskPasses F P.Plan.plan cs (M.Memory.meaning memory.old) Kind.Store address width result }
        ensures unselected { (cs : List PlanCall) → P.Plan.stands self.now.plan cs → StoppedUnselected F P.Plan.plan cs Kind.Store address width result }
        ensures after { M.Memory.meaning memory.new ≡ after_store (M.Memory.meaning memory.old) address width value result }
        ensures borrows { M.Memory.lenders memory.new ≡ M.Memory.lenders memory.old }
    {
        let request = Request::user(Kind::Store, address, width);
        transfers::store(&self.plan, memory, request, value)
    }

    // Leaves the task for the supervisor.
    pub fn trap(self) -> SupervisorHart<P>
        ensures { result.plan ≡ self.plan }
    {
        SupervisorHart { plan: self.plan }
    }
}
