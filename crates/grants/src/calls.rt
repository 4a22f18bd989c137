// The calls on a plan whose regions stay in their entries. That what is active is what the selected task holds follows from the type;
// each call says it all the same, since its users look for it there.
ghost use Rattle.std.specs.Prelude.{◌≡◌, replicate, None};
ghost use Rattle.table.specs.Tables.{regs};
ghost use Rattle.table.specs.Checks.{Checked};
ghost use Rattle.grants.specs.declared.owner.Owner.TheVariants.{Free};
ghost use Rattle.grants.specs.Refusals.{Answered};
ghost use Rattle.grants.specs.Residence.{grant_answer, after_grant, withdraw_answer, after_withdraw, select_answer, after_select};
ghost use Rattle.grants.specs.Standing.{owners_of, PlanShown};

use super::admission::TASKS;
use super::entries::Entries;
use super::refusal::GrantRefusal;
use super::resident::ResidentPlan;
use access::access::Request;
use access::field_bits::FieldBits;
use access::refusal::Refusal;
use book::book::RuleBook;

impl<B: RuleBook, const F: u32> ResidentPlan<B, F> {
    // A plan without regions or selection.
    pub fn new(bits: FieldBits<F>) -> Self
        ensures owners { owners_of result ≡ replicate 64 Free }
        ensures selected { result.selected ≡ None }
        ensures shown { PlanShown B.meaning result }
    {
        ResidentPlan {
            entries: Entries::new(bits),
            selected: None,
            bits,
        }
    }

    // Checks an access: the entry that passes it, 64 for none, or why it is refused.
    pub fn check(&self, request: Request) -> Result<u8, Refusal>
        ensures { Checked F B.meaning (regs self.now.entries.table) request.mode request.sum request.kind request.address request.width result }
    {
        self.entries.table.check(request)
    }

    // Grants a region to a task.
    pub fn grant(
        &mut self,
        task: u64,
        base: u64,
        length: u64,
        rights: u64,
    ) -> Result<(), GrantRefusal>
        ensures answer { Answered (grant_answer F (owners_of self.old) task base length rights) self.old self.new result }
        ensures owners { owners_of self.new ≡ after_grant F (owners_of self.old) task base length rights }
        ensures selected { self.new.selected ≡ self.old.selected }
        ensures shown { PlanShown B.meaning self.new }
    {
        let owners = &self.entries.owners;
        let region = owners.admit(self.bits, task, base, length, rights)?;
        let form = region.form();
        let Some(i) = owners.room(form) else {
            return Err(GrantRefusal::NoRoom);
        };
        self.entries.occupy(i, form, task, region);
        self.entries.switch_on(self.selected);
        Ok(())
    }

    // Withdraws the task's region that begins at a base.
    pub fn withdraw(&mut self, task: u64, base: u64) -> Result<(), GrantRefusal>
        ensures answer { Answered (withdraw_answer (owners_of self.old) task base) self.old self.new result }
        ensures owners { owners_of self.new ≡ after_withdraw (owners_of self.old) task base }
        ensures selected { self.new.selected ≡ self.old.selected }
        ensures shown { PlanShown B.meaning self.new }
    {
        if task >= TASKS {
            return Err(GrantRefusal::NoSuchTask);
        }
        let Some(i) = self.entries.owners.find(task, base) else {
            return Err(GrantRefusal::NotHeld);
        };
        self.entries.vacate(i);
        self.entries.switch_on(self.selected);
        Ok(())
    }

    // Selects a task.
    pub fn select(&mut self, task: u64) -> Result<(), GrantRefusal>
        ensures answer { Answered (select_answer task) self.old self.new result }
        ensures owners { owners_of self.new ≡ owners_of self.old }
        ensures selected { self.new.selected ≡ after_select self.old.selected task }
        ensures shown { PlanShown B.meaning self.new }
    {
        if task >= TASKS {
            return Err(GrantRefusal::NoSuchTask);
        }
        self.selected = Some(task);
        self.entries.switch_on(self.selected);
        Ok(())
    }
}
