// What a plan's entries hold, for a reader.
ghost use Rattle.std.specs.Prelude.{◌≡◌, ℕ, ◌<◌, Some};
ghost use Rattle.book.specs.Bits.{bit};
ghost use Rattle.table.specs.Tables.{regs};
ghost use Rattle.grants.specs.Owners.{owner_at};
ghost use Rattle.grants.specs.Images.{byte_of, switch_bits, switched_on};
ghost use Rattle.grants.specs.Resolving.{OthersUntouched};
ghost use Rattle.grants.specs.Shown.{RegionsShown};
ghost use Rattle.grants.specs.Standing.{owners_of};

use super::owner::Owner;
use super::placing::{address_of, byte_of};
use super::resident::ResidentPlan;
use book::book::RuleBook;

impl<B: RuleBook, const F: u32> ResidentPlan<B, F> {
    // The owner of entry n; there is none past 63.
    pub fn owner_of(&self, n: usize) -> Owner
        ensures { result ≡ owner_at (owners_of self.now) n }
    {
        self.entries.owners.at(n)
    }

    // The configuration byte and the address register of entry n.
    pub fn registers_of(&self, n: usize) -> (u8, u64)
        ensures byte { result.0 ≡ byte_of B.meaning (owner_at (owners_of self.now) n) }
        ensures config { result.0 ≡ (regs self.now.entries.table).config n }
        ensures address { result.1 ≡ (regs self.now.entries.table).address n }
        ensures regions { RegionsShown F B.meaning }
    {
        let owner = self.owner_of(n);
        (byte_of::<B>(owner), address_of::<F>(owner))
    }

    // The task that is selected.
    pub fn selected(&self) -> Option<u64>
        ensures { result ≡ self.now.selected }
    {
        self.selected
    }

    // The switch bits that a selection of a task sets: bit i is that of entry i.
    pub fn switches_of(&self, task: u64) -> u64
        ensures value { result ≡ switch_bits (owners_of self.now) (Some task) }
        ensures bits { (i : ℕ) → i < 64 → bit result i ≡ switched_on (Some task) (owner_at (owners_of self.now) i) }
        ensures others { OthersUntouched F }
    {
        self.entries.owners.switches(Some(task))
    }
}
