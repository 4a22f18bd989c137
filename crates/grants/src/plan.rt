// What a plan is to the code above it.
ghost use Rattle.std.specs.Prelude.{List, [], ◌∷◌};
ghost use Rattle.book.specs.Books.{Book, Laws};
ghost use Rattle.table.specs.Checks.{Checked};
ghost use Rattle.grants.specs.Refusals.{Answered};
ghost use Rattle.grants.specs.Plans.{PlanMeaning, PlanLaws, answer_after};
ghost use Rattle.grants.specs.declared.call.PlanCall.{PlanCall};
ghost use Rattle.grants.specs.declared.call.PlanCall.TheVariants.{Grant, Withdraw, Select};

use super::refusal::GrantRefusal;
use access::access::Request;
use access::refusal::Refusal;

// Regions are granted to tasks and withdrawn, and a selected task's regions are active.
// A grant's four numbers are the call's own, the rights too, since every number gets an answer: a struct of them would be made at each call
// and taken apart in it.
pub trait Plan<const F: u32> {
    // What a plan is made from.
    type Start;

    ghost book: { Book };

    ghost plan: { PlanMeaning };

    // This plan is as these calls leave it, the newest first. No field says so: a plan does not keep its calls.
    ghost stands: { Self → List PlanCall → Type 0 };

    // A plan on which any calls were made keeps the laws.
    ghost lawful: { (p : Self) (cs : List PlanCall) → stands p cs → Laws book × PlanLaws F book plan };

    // A plan on which no call was made.
    fn new(start: Self::Start) -> Self
        ensures { stands result [] };

    // Grants a region to a task.
    fn grant(&mut self, task: u64, base: u64, length: u64, rights: u64) -> Result<(), GrantRefusal>
        ensures answer { (cs : List PlanCall) → stands self.old cs → Answered (answer_after F plan.terms cs (Grant task base length rights)) self.old self.new result }
        ensures after { (cs : List PlanCall) → stands self.old cs → stands self.new (Grant task base length rights ∷ cs) };

    // Withdraws the task's region that begins at a base.
    fn withdraw(&mut self, task: u64, base: u64) -> Result<(), GrantRefusal>
        ensures answer { (cs : List PlanCall) → stands self.old cs → Answered (answer_after F plan.terms cs (Withdraw task base)) self.old self.new result }
        ensures after { (cs : List PlanCall) → stands self.old cs → stands self.new (Withdraw task base ∷ cs) };

    // Selects a task.
    fn select(&mut self, task: u64) -> Result<(), GrantRefusal>
        ensures answer { (cs : List PlanCall) → stands self.old cs → Answered (answer_after F plan.terms cs (Select task)) self.old self.new result }
        ensures after { (cs : List PlanCall) → stands self.old cs → stands self.new (Select task ∷ cs) };

    // Checks an access: the entry that passes it, 64 for none, or why it is refused.
    fn check(&self, request: Request) -> Result<u8, Refusal>
        ensures { (cs : List PlanCall) → stands self.now cs → Checked F book (plan.entries cs) request.mode request.sum request.kind request.address request.width result };
}
