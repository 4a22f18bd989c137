// The lines of a plan's entries.
ghost use Rattle.std.specs.Prelude.{◌≡◌, ◌++◌, IfOk, OnOk};
ghost use Rattle.std.specs.Option.{option_to_list};
ghost use Rattle.grants.specs.Owners.{owner_at};
ghost use Rattle.grants.specs.Standing.{owners_of};
ghost use Rattle.loading.specs.Lines.{owner_task, entry_line, entry_lines};

use book::book::RuleBook;
use grants::owner::Owner;
use grants::resident::ResidentPlan;
use layout::lines::EntryLine;
use std::alloc::{AllocError, Global};

// The task that an entry serves.
fn task_of(owner: Owner) -> Option<u64>
    ensures { result ≡ owner_task owner }
{
    match owner {
        Owner::Free => None,
        Owner::Lower { task, .. } | Owner::Upper { task, .. } => Some(task),
    }
}

// The line of entry n, if it is taken.
fn entry_line<B: RuleBook>(plan: &ResidentPlan<B, 32>, n: u8) -> Option<EntryLine>
    ensures { result ≡ entry_line B.RuleBook.meaning n (owner_at (owners_of plan.now) n) }
{
    let task = task_of(plan.owner_of(n as usize))?;
    let (byte, address) = plan.registers_of(n as usize);
    Some(EntryLine {
        number: n,
        byte,
        address: (address % (1 << 32)) as u32,
        task: (task % 256) as u8,
    })
}

// A line for each entry that is taken, rising by number.
pub fn entry_lines<B: RuleBook>(
    heap: Global,
    plan: &ResidentPlan<B, 32>,
) -> Result<Vec<EntryLine>, AllocError>
    ensures { IfOk result (λ v. v.items ≡ entry_lines B.RuleBook.meaning (owners_of plan.now)) }
{
    (0..64u8).filter_map(|n| entry_line(plan, n)).collect(heap)
}
