// The regions of a layout, granted to its tasks.
ghost use Rattle.std.specs.Prelude.{◌≡◌, ◌+◌, ◌^◌, ◌<◌, List, ◌∷◌, length};
ghost use Rattle.grants.specs.Plans.{answer_after};
ghost use Rattle.grants.specs.declared.call.PlanCall.{PlanCall};
ghost use Rattle.layout.specs.Partition.{Consecutive, region_count};
ghost use Rattle.loading.specs.Grants.{grant_of, task_grants, grants_of};
ghost use Rattle.loading.specs.Played.{refused_by, played, Reported};

use super::refusal::LoadRefusal;
use grants::plan::Plan;
use layout::layout::Layout;
use layout::records::{RegionRecord, TaskRecord};

// Grants one region of the file to a task.
fn grant_region<P: Plan<F>, const F: u32>(
    plan: &mut P,
    task: usize,
    index: usize,
    region: RegionRecord,
) -> Result<(), LoadRefusal>
    ensures calls { (cs : List PlanCall) → P.Plan.stands plan.old cs → P.Plan.stands plan.new ((grant_of task index region).call ∷ cs) }
    ensures answer { (cs : List PlanCall) → P.Plan.stands plan.old cs → Reported (refused_by (grant_of task index region) (answer_after F P.Plan.plan.terms cs (grant_of task index region).call)) result }
{
    let base = 4 * u64::from(region.base);
    let length = 4 * u64::from(region.length);
    plan.grant(task as u64, base, length, u64::from(region.rights))
        .map_err(|refusal| LoadRefusal {
            refusal,
            task,
            region: index,
        })
}

// Grants a task its regions, the first of which stands at `first` in the file.
fn load_task<P: Plan<F>, const F: u32>(
    plan: &mut P,
    task: usize,
    first: usize,
    regions: &[RegionRecord],
) -> Result<(), LoadRefusal>
    requires { first + length regions.now < 2 ^ 64 }
    ensures calls { (cs : List PlanCall) → P.Plan.stands plan.old cs → P.Plan.stands plan.new (played F P.Plan.plan.terms cs (task_grants task first regions.now)).calls }
    ensures answer { (cs : List PlanCall) → P.Plan.stands plan.old cs → Reported (played F P.Plan.plan.terms cs (task_grants task first regions.now)).refusal result }
{
    for (i, region) in regions.iter().enumerate() {
        grant_region(plan, task, first + i, *region)?;
    }
    Ok(())
}

// Grants tasks their regions, in the order of the file.
fn load_tasks<P: Plan<F>, const F: u32>(
    plan: &mut P,
    tasks: &[TaskRecord],
    regions: &[RegionRecord],
) -> Result<(), LoadRefusal>
    requires { (Consecutive tasks.now) × (region_count tasks.now ≡ length regions.now) }
    ensures calls { (cs : List PlanCall) → P.Plan.stands plan.old cs → P.Plan.stands plan.new (played F P.Plan.plan.terms cs (grants_of tasks.now regions.now)).calls }
    ensures answer { (cs : List PlanCall) → P.Plan.stands plan.old cs → Reported (played F P.Plan.plan.terms cs (grants_of tasks.now regions.now)).refusal result }
{
    for (task, record) in tasks.iter().enumerate() {
        let first = record.first as usize;
        let end = first + record.count as usize;
        load_task(plan, task, first, &regions[first..end])?;
    }
    Ok(())
}

// Grants each task its regions, in the order of the file. The first refusal ends it, and what was granted stays.
pub fn load<P: Plan<F>, const F: u32>(plan: &mut P, layout: &Layout) -> Result<(), LoadRefusal>
    ensures calls { (cs : List PlanCall) → P.Plan.stands plan.old cs → P.Plan.stands plan.new (played F P.Plan.plan.terms cs (grants_of layout.now.tasks.items layout.now.regions.items)).calls }
    ensures answer { (cs : List PlanCall) → P.Plan.stands plan.old cs → Reported (played F P.Plan.plan.terms cs (grants_of layout.now.tasks.items layout.now.regions.items)).refusal result }
{
    load_tasks(plan, layout.tasks.as_slice(), layout.regions.as_slice())
}
