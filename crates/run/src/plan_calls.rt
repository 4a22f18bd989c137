// Grants, withdrawals and selections of a run.
ghost use Rattle.std.specs.Prelude.{List, ◌∷◌};
ghost use Rattle.grants.specs.Plans.{answer_after};
ghost use Rattle.grants.specs.declared.call.PlanCall.{PlanCall};
ghost use Rattle.history.specs.Runs.{PlanAnswered};

use grants::call::PlanCall;
use grants::plan::Plan;
use hart::harts::SupervisorHart;
use history::call::Answer;

// Makes a grant, a withdrawal or a selection.
pub(crate) fn plan_call<P: Plan<F>, const F: u32>(
    hart: &mut SupervisorHart<P>,
    call: PlanCall,
) -> Answer
    ensures answer { (cs : List PlanCall) → P.Plan.stands hart.old.plan cs → PlanAnswered (answer_after F P.Plan.plan.terms cs call) result }
    ensures after { (cs : List PlanCall) → P.Plan.stands hart.old.plan cs → P.Plan.stands hart.new.plan (call ∷ cs) }
{
    match call {
        PlanCall::Grant {
            task,
            base,
            length,
            rights,
        } => hart.grant(task, base, length, rights).into(),
        PlanCall::Withdraw { task, base } => hart.withdraw(task, base).into(),
        PlanCall::Select { task } => hart.select(task).into(),
    }
}
