// An access of the selected task against any plan.
ghost use Rattle.std.specs.Prelude.{List};
ghost use Rattle.grants.specs.declared.call.PlanCall.{PlanCall};
ghost use Rattle.grants.specs.Passing.{PassesTask, TaskAccesses};

use super::plan::Plan;
use access::access::{Kind, Mode, Request};
use access::refusal::Refusal;

// Passes exactly when the access is well formed and one region that the selected task holds covers it with the right.
// The mode is given, so it takes the rest of a request.
pub fn check_task<P: Plan<F>, const F: u32>(
    plan: &P,
    sum: bool,
    kind: Kind,
    address: u64,
    width: u64,
) -> Result<u8, Refusal>
    ensures passes { (cs : List PlanCall) → P.Plan.stands plan.now cs → PassesTask F P.Plan.plan cs kind address width result }
    ensures everywhere { TaskAccesses F }
{
    plan.check(Request {
        mode: Mode::User,
        sum,
        kind,
        address,
        width,
    })
}
