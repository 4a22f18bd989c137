// What is printed of a layout file.
ghost use Rattle.std.specs.Prelude.{◌≡◌, IfOk, string_bytes};
ghost use Rattle.loading.specs.Reports.{line_text, granted_text, report_text, LongFiles};

use super::listing::listing;
use super::load::load;
use access::field_bits::FieldBits;
use book::spmp_book::SpmpBook;
use grants::plan::Plan;
use grants::resident::ResidentPlan;
use layout::layout::Layout;
use layout::lines::RefusalLine;
use std::alloc::{AllocError, Global};

type SpmpPlan = ResidentPlan<SpmpBook, 32>;

// A refusal on a line of its own.
fn line_text(heap: Global, line: RefusalLine) -> Result<String, AllocError>
    ensures { IfOk result (λ s. string_bytes s ≡ line_text line) }
{
    format!(in heap; "{line}\n")
}

// The listing of a layout on a new plan of the SPMP book, or the grant that is refused.
pub fn granted_text(heap: Global, layout: &Layout) -> Result<String, AllocError>
    ensures { IfOk result (λ s. string_bytes s ≡ granted_text layout.now.tasks.items layout.now.regions.items) }
{
    let mut plan = <SpmpPlan as Plan<32>>::new(FieldBits::rv32());
    let tasks = layout.tasks.len();
    match load(&mut plan, layout) {
        Ok(()) => listing(heap, &plan, tasks),
        Err(refusal) => line_text(heap, refusal.into()),
    }
}

// What is printed of a file: its listing, or why it is refused.
#[tactic(auto, using(crate::proofs::Long::long_files))]
pub fn report_text(heap: Global, file: &[u8]) -> Result<String, AllocError>
    ensures text { IfOk result (λ s. string_bytes s ≡ report_text file.now) }
    ensures long { LongFiles }
{
    match Layout::decode(heap, file) {
        Ok(layout) => granted_text(heap, &layout),
        Err(refusal) => line_text(heap, refusal.line().ok_or(AllocError)?),
    }
}
