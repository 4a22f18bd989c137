// Runs, and what holds of every one.
ghost use Rattle.std.specs.Prelude.{◌≡◌, MatchResult};
ghost use Rattle.run.specs.Ran.{Ran};

use crate::hart_state::Hart;
use crate::turn::Turn;
use grants::plan::Plan;
use hart::harts::SupervisorHart;
use history::call::Call;
use memory::memory::Memory;
use std::alloc::{AllocError, Global};

// Plays the calls on a new hart beside the memory, one turn for each call.
// Room for the turns is taken first: where there is none, nothing is played.
pub fn run<P: Plan<F> + Drop, M: Memory<F>, const F: u32>(
    heap: Global,
    start: P::Start,
    memory: &mut M,
    calls: &[Call],
) -> Result<Vec<Turn>, AllocError>
    ensures ran { MatchResult result (λ turns. Ran F P.Plan.book P.Plan.plan (M.Memory.meaning memory.old) (M.Memory.meaning memory.new) calls.now turns.items) (λ _. memory.new ≡ memory.old) }
    ensures borrows { M.Memory.lenders memory.new ≡ M.Memory.lenders memory.old }
{
    let mut hart = Hart::Supervisor(SupervisorHart::<P>::new(start));
    let mut turns = Vec::with_capacity(heap, calls.len())?;
    for call in calls {
        let (next, answer) = hart.play(memory, *call);
        hart = next;
        turns.push(Turn {
            call: *call,
            answer,
        })?;
    }
    Ok(turns)
}
