// The lines of the tasks' switch words.
ghost use Rattle.std.specs.Prelude.{◌≡◌, min, IfOk};
ghost use Rattle.grants.specs.Standing.{owners_of};
ghost use Rattle.loading.specs.Lines.{switch_line, switch_lines};

use book::book::RuleBook;
use grants::admission::TASKS;
use grants::resident::ResidentPlan;
use layout::lines::SwitchLine;
use std::alloc::{AllocError, Global};

// The number of tasks that a plan can have, of those that a file has.
fn listed(tasks: usize) -> u8
    ensures { result ≡ min tasks 16 }
{
    (tasks as u64).min(TASKS) as u8
}

// The line of a task.
fn switch_line<B: RuleBook>(plan: &ResidentPlan<B, 32>, task: u8) -> SwitchLine
    ensures { result ≡ switch_line (owners_of plan.now) task }
{
    let bits = plan.switches_of(u64::from(task));
    SwitchLine {
        task,
        low: (bits % (1 << 32)) as u32,
        high: (bits / (1 << 32)) as u32,
    }
}

// A line for each task of a file, rising by number.
pub fn switch_lines<B: RuleBook>(
    heap: Global,
    plan: &ResidentPlan<B, 32>,
    tasks: usize,
) -> Result<Vec<SwitchLine>, AllocError>
    ensures { IfOk result (λ v. v.items ≡ switch_lines (owners_of plan.now) tasks) }
{
    (0..listed(tasks))
        .map(|task| switch_line(plan, task))
        .collect(heap)
}
