// A hart in supervisor mode: the calls on its plan, the supervisor's accesses, and the entry into a task.
ghost use Rattle.std.specs.Prelude.{◌≡◌, List, [], ◌∷◌};
ghost use Rattle.access.specs.Kinds.{kind_of};
ghost use Rattle.access.specs.declared.access.Mode.{Mode};
ghost use Rattle.memory.specs.Effects.{value_at};
ghost use Rattle.grants.specs.Plans.{answer_after};
ghost use Rattle.grants.specs.Refusals.{Answered};
ghost use Rattle.grants.specs.declared.call.PlanCall.{PlanCall};
ghost use Rattle.grants.specs.declared.call.PlanCall.TheVariants.{Grant, Withdraw, Select};
ghost use Rattle.hart.specs.Accesses.{AccessAnswer, after_store};
ghost use Rattle.hart.specs.Status.{sum_of};

use super::harts::{SupervisorHart, UserHart};
use super::status::Status;
use super::transfers;
use access::access::{Kind, Reading, Request};
use access::refusal::Refusal;
use grants::plan::Plan;
use grants::refusal::GrantRefusal;
use memory::memory::Memory;

impl<P> SupervisorHart<P> {
    // A hart with a plan on which no call was made.
    pub fn new<const F: u32>(start: P::Start) -> Self
    where
        P: Plan<F>,
        ensures { P.Plan.stands result.plan [] }
    {
        let plan = P::new(start);
        SupervisorHart { plan }
    }

    // Its plan, as for a listing.
    pub fn plan(&self) -> &P
        ensures { result.now ≡ self.now.plan }
    {
        &self.plan
    }

    // Grants a region to a task.
    pub fn grant<const F: u32>(
        &mut self,
        task: u64,
        base: u64,
        length: u64,
        rights: u64,
    ) -> Result<(), GrantRefusal>
    where
        P: Plan<F>,
        ensures answer { (cs : List PlanCall) → P.Plan.stands self.old.plan cs → Answered (answer_after F P.Plan.plan.terms cs (Grant task base length rights)) self.old.plan self.new.plan result }
        ensures after { (cs : List PlanCall) → P.Plan.stands self.old.plan cs → P.Plan.stands self.new.plan (Grant task base length rights ∷ cs) }
    {
        self.plan.grant(task, base, length, rights)
    }

    // Withdraws the task's region that begins at a base.
    pub fn withdraw<const F: u32>(&mut self, task: u64, base: u64) -> Result<(), GrantRefusal>
    where
        P: Plan<F>,
        ensures answer { (cs : List PlanCall) → P.Plan.stands self.old.plan cs → Answered (answer_after F P.Plan.plan.terms cs (Withdraw task base)) self.old.plan self.new.plan result }
        ensures after { (cs : List PlanCall) → P.Plan.stands self.old.plan cs → P.Plan.stands self.new.plan (Withdraw task base ∷ cs) }
    {
        self.plan.withdraw(task, base)
    }

    // Selects the task that is entered next.
    pub fn select<const F: u32>(&mut self, task: u64) -> Result<(), GrantRefusal>
    where
        P: Plan<F>,
        ensures answer { (cs : List PlanCall) → P.Plan.stands self.old.plan cs → Answered (answer_after F P.Plan.plan.terms cs (Select task)) self.old.plan self.new.plan result }
        ensures after { (cs : List PlanCall) → P.Plan.stands self.old.plan cs → P.Plan.stands self.new.plan (Select task ∷ cs) }
    {
        self.plan.select(task)
    }

    // Loads a value for the supervisor, or fetches an instruction.
    pub fn read<M: Memory<F>, const F: u32>(
        &self,
        status: &Status,
        memory: &M,
        reading: Reading,
        address: u64,
        width: u64,
    ) -> Result<u64, Refusal>
    where
        P: Plan<F>,
        ensures { (cs : List PlanCall) → P.Plan.stands self.now.plan cs → AccessAnswer F P.Plan.book (P.Plan.plan.entries cs) (M.Memory.meaning memory.now) Mode.Supervisor (sum_of status.now.word) (kind_of reading) address width (value_at (M.Memory.meaning memory.now).byte address width) result }
    {
        let request = Request::supervisor(status.sum(), reading.into(), address, width);
        transfers::read(&self.plan, memory, reading, request)
    }

    // Stores the low bytes of a value for the supervisor.
    pub fn store<M: Memory<F>, const F: u32>(
        &self,
        status: &Status,
        memory: &mut M,
        address: u64,
        width: u64,
        value: u64,
    ) -> Result<(), Refusal>
    where
        P: Plan<F>,
        ensures answer { (cs : List PlanCall) → P.Plan.stands self.now.plan cs → AccessAnswer F P.Plan.book (P.Plan.plan.entries cs) (M.Memory.meaning memory.old) Mode.Supervisor (sum_of status.now.word) Kind.Store address width tt result }
        ensures after { M.Memory.meaning memory.new ≡ after_store (M.Memory.meaning memory.old) address width value result }
        ensures borrows { M.Memory.lenders memory.new ≡ M.Memory.lenders memory.old }
    {
        let request = Request::supervisor(status.sum(), Kind::Store, address, width);
        transfers::store(&self.plan, memory, request, value)
    }

    // Enters the selected task.
    pub fn enter(self) -> UserHart<P>
        ensures { result.plan ≡ self.plan }
    {
        UserHart { plan: self.plan }
    }
}
