// A layout, granted on a hart's plan.
ghost use Rattle.std.specs.Prelude.{List};
ghost use Rattle.grants.specs.declared.call.PlanCall.{PlanCall};
ghost use Rattle.loading.specs.Grants.{grants_of};
ghost use Rattle.loading.specs.Played.{played, Reported};

use super::harts::SupervisorHart;
use grants::plan::Plan;
use layout::layout::Layout;
use loading::load::load;
use loading::refusal::LoadRefusal;

impl<P> SupervisorHart<P> {
    // Grants each task of a layout its regions: it counts as the grants that it makes, up to the first that is refused.
    pub fn load_layout<const F: u32>(&mut self, layout: &Layout) -> Result<(), LoadRefusal>
    where
        P: Plan<F>,
        ensures calls { (cs : List PlanCall) → P.Plan.stands self.old.plan cs → P.Plan.stands self.new.plan (played F P.Plan.plan.terms cs (grants_of layout.now.tasks.items layout.now.regions.items)).calls }
        ensures answer { (cs : List PlanCall) → P.Plan.stands self.old.plan cs → Reported (played F P.Plan.plan.terms cs (grants_of layout.now.tasks.items layout.now.regions.items)).refusal result }
    {
        load(&mut self.plan, layout)
    }
}
