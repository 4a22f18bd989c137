// Accesses of a run.
// There are two functions, since the harts are two types with other calls: a trait over both would need two impls as long as these.
ghost use Rattle.std.specs.Prelude.{◌≡◌, false, List};
ghost use Rattle.access.specs.declared.access.Mode.{Mode};
ghost use Rattle.grants.specs.declared.call.PlanCall.{PlanCall};
ghost use Rattle.history.specs.Runs.{Accessed};
ghost use Rattle.run.specs.Results.{memory_with};

use access::access::Reading;
use grants::plan::Plan;
use hart::harts::{SupervisorHart, UserHart};
use hart::status::Status;
use history::call::{Access, Answer};
use memory::memory::Memory;

// Makes an access of the supervisor.
pub(crate) fn supervisor_access<P: Plan<F>, M: Memory<F>, const F: u32>(
    hart: &SupervisorHart<P>,
    memory: &mut M,
    sum: bool,
    access: Access,
) -> Answer
    ensures answer { (cs : List PlanCall) → P.Plan.stands hart.now.plan cs → Accessed F P.Plan.book (P.Plan.plan.entries cs) (M.Memory.meaning memory.old) Mode.Supervisor sum access result }
    ensures after { M.Memory.meaning memory.new ≡ memory_with (M.Memory.meaning memory.old) access result }
    ensures borrows { M.Memory.lenders memory.new ≡ M.Memory.lenders memory.old }
{
    let mut status = Status::new(0);
    status.set_sum(sum);
    match access {
        Access::Load { address, width } => {
            hart.read(&status, memory, Reading::Load, address, width)
                .into()
        }
        Access::Store {
            address,
            width,
            value,
        } => hart.store(&status, memory, address, width, value).into(),
        Access::Fetch { address, width } => {
            hart.read(&status, memory, Reading::Fetch, address, width)
                .into()
        }
    }
}

// Makes an access of the task that is entered.
pub(crate) fn task_access<P: Plan<F>, M: Memory<F>, const F: u32>(
    hart: &UserHart<P>,
    memory: &mut M,
    access: Access,
) -> Answer
    ensures answer { (cs : List PlanCall) → P.Plan.stands hart.now.plan cs → Accessed F P.Plan.book (P.Plan.plan.entries cs) (M.Memory.meaning memory.old) Mode.User false access result }
    ensures after { M.Memory.meaning memory.new ≡ memory_with (M.Memory.meaning memory.old) access result }
    ensures borrows { M.Memory.lenders memory.new ≡ M.Memory.lenders memory.old }
{
    match access {
        Access::Load { address, width } => hart.read(memory, Reading::Load, address, width).into(),
        Access::Store {
            address,
            width,
            value,
        } => hart.store(memory, address, width, value).into(),
        Access::Fetch { address, width } => hart
            .read(memory, Reading::Fetch, address, width)
            .into(),
    }
}
