// The listing of a plan.
ghost use Rattle.std.specs.Prelude.{◌≡◌, List, IfOk, string_bytes};
ghost use Rattle.grants.specs.Standing.{owners_of};
ghost use Rattle.grants.specs.ResidentMeaning.{owners_after, ResidentStands};
ghost use Rattle.grants.specs.declared.call.PlanCall.{PlanCall};
ghost use Rattle.loading.specs.Lines.{owners_text};

use super::entries::entry_lines;
use super::switches::switch_lines;
use book::book::RuleBook;
use grants::resident::ResidentPlan;
use layout::listing::listing_text;
use std::alloc::{AllocError, Global};

// The text of a plan's entries that are taken, and of the switch words of a file's tasks.
pub fn listing<B: RuleBook>(
    heap: Global,
    plan: &ResidentPlan<B, 32>,
    tasks: usize,
) -> Result<String, AllocError>
    ensures standing { IfOk result (λ s. string_bytes s ≡ owners_text B.RuleBook.meaning (owners_of plan.now) tasks) }
    ensures after { (cs : List PlanCall) → ResidentStands B.RuleBook.meaning plan.now cs → IfOk result (λ s. string_bytes s ≡ owners_text B.RuleBook.meaning (owners_after 32 cs) tasks) }
{
    let entries = entry_lines(heap, plan)?;
    let switches = switch_lines(heap, plan, tasks)?;
    listing_text(heap, entries.as_slice(), switches.as_slice())
}
