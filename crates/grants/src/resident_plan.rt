// The plan whose regions stay in their entries, as a plan. Its own calls of the same names promise more: owners and registers.
ghost use Rattle.grants.specs.ResidentMeaning.{resident_plan, ResidentStands};

use super::plan::Plan;
use super::refusal::GrantRefusal;
use super::resident::ResidentPlan;
use access::access::Request;
use access::field_bits::FieldBits;
use access::refusal::Refusal;
use book::book::RuleBook;

impl<B: RuleBook, const F: u32> Plan<F> for ResidentPlan<B, F> {
    type Start = FieldBits<F>;

    ghost book = { B.RuleBook.meaning };

    ghost plan = { resident_plan F B.RuleBook.meaning };

    ghost stands = { λ p cs. ResidentStands B.RuleBook.meaning p cs };

    ghost lawful = { λ p cs s. (s.book_laws, s.plan_laws) };

    fn new(bits: FieldBits<F>) -> Self {
        ResidentPlan::new(bits)
    }

    fn grant(
        &mut self,
        task: u64,
        base: u64,
        length: u64,
        rights: u64,
    ) -> Result<(), GrantRefusal> {
        self.grant(task, base, length, rights)
    }

    fn withdraw(&mut self, task: u64, base: u64) -> Result<(), GrantRefusal> {
        self.withdraw(task, base)
    }

    fn select(&mut self, task: u64) -> Result<(), GrantRefusal> {
        self.select(task)
    }

    fn check(&self, request: Request) -> Result<u8, Refusal> {
        self.check(request)
    }
}
