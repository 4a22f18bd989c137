// The supervisor's use of user memory, in a window that closes on every way out.
ghost use Rattle.std.specs.Prelude.{◌≡◌, List};
ghost use Rattle.grants.specs.declared.call.PlanCall.{PlanCall};
ghost use Rattle.hart.specs.Through.{ThroughAnswer};

use super::harts::SupervisorHart;
use super::status::Status;
use super::window::Window;
use access::access::Reading;
use access::refusal::Refusal;
use grants::plan::Plan;
use memory::memory::Memory;

// Loads the word that a pointer in user memory leads to.
pub fn load_through<P: Plan<F>, M: Memory<F>, const F: u32>(
    hart: &SupervisorHart<P>,
    status: &mut Status,
    memory: &M,
    pointer: u64,
) -> Result<u64, Refusal>
    ensures answer { (cs : List PlanCall) → P.Plan.stands hart.now.plan cs → ThroughAnswer F P.Plan.book (P.Plan.plan.entries cs) (M.Memory.meaning memory.now) pointer result }
    ensures word { status.new.word ≡ status.old.word }
{
    let window = Window::open(status);
    let address = hart.read(window.status(), memory, Reading::Load, pointer, 4)?;
    hart.read(window.status(), memory, Reading::Load, address, 4)
}
