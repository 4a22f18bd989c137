// An access of a hart: its plan checks it, and then the memory answers.
ghost use Rattle.std.specs.Prelude.{◌≡◌, List};
ghost use Rattle.access.specs.Kinds.{kind_of};
ghost use Rattle.access.specs.Refusals.{report_of, not_admitted};
ghost use Rattle.access.specs.declared.access.Kind.{Kind};
ghost use Rattle.memory.specs.Effects.{value_at};
ghost use Rattle.grants.specs.declared.call.PlanCall.{PlanCall};
ghost use Rattle.hart.specs.Accesses.{AccessAnswer, after_store};

use access::access::{Reading, Request};
use access::refusal::{Fault, Refusal};
use grants::plan::Plan;
use memory::memory::Memory;

// The refusal of an access that the plan's check passed and the memory did not admit.
fn not_admitted(request: Request, entry: u8) -> Refusal
    ensures { report_of result ≡ not_admitted request.kind request.address entry }
{
    Refusal::NotAdmitted(Fault {
        cause: request.kind.memory_cause(),
        address: request.address,
        entry,
    })
}

// Loads a value, or fetches an instruction. Inlined, as the store is, so that constants in a request shorten it.
#[inline]
pub(crate) fn read<P: Plan<F>, M: Memory<F>, const F: u32>(
    plan: &P,
    memory: &M,
    reading: Reading,
    request: Request,
) -> Result<u64, Refusal>
    requires { request.kind ≡ kind_of reading }
    ensures { (cs : List PlanCall) → P.Plan.stands plan.now cs → AccessAnswer F P.Plan.book (P.Plan.plan.entries cs) (M.Memory.meaning memory.now) request.mode request.sum request.kind request.address request.width (value_at (M.Memory.meaning memory.now).byte request.address request.width) result }
{
    let entry = plan.check(request)?;
    memory
        .read(reading, request.address, request.width)
        .map_err(|_| not_admitted(request, entry))
}

// Stores the low bytes of a value.
#[inline]
pub(crate) fn store<P: Plan<F>, M: Memory<F>, const F: u32>(
    plan: &P,
    memory: &mut M,
    request: Request,
    value: u64,
) -> Result<(), Refusal>
    requires { request.kind ≡ Kind.Store }
    ensures answer { (cs : List PlanCall) → P.Plan.stands plan.now cs → AccessAnswer F P.Plan.book (P.Plan.plan.entries cs) (M.Memory.meaning memory.old) request.mode request.sum request.kind request.address request.width tt result }
    ensures after { M.Memory.meaning memory.new ≡ after_store (M.Memory.meaning memory.old) request.address request.width value result }
    ensures borrows { M.Memory.lenders memory.new ≡ M.Memory.lenders memory.old }
{
    let entry = plan.check(request)?;
    memory
        .store(request.address, request.width, value)
        .map_err(|_| not_admitted(request, entry))
}
