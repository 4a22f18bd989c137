// Entries given to owners and taken back.
ghost use Rattle.std.specs.Prelude.{◌≡◌, ◌+◌, ◌<◌, ◌≤◌, replicate, slice_set};
ghost use Rattle.table.specs.Bounds.{matching_at};
ghost use Rattle.table.specs.Tables.{regs};
ghost use Rattle.grants.specs.Regions.{form_of, a_of, top_address};
ghost use Rattle.grants.specs.Owners.{occupied, vacated, vacated_form, entries_of};
ghost use Rattle.grants.specs.Images.{byte_of, address_of};
ghost use Rattle.grants.specs.Residence.{Placeable, OwnerFits, Resident};
ghost use Rattle.grants.specs.declared.owner.Owner.TheVariants.{Free};

use super::entries::Entries;
use super::owner::{Owner, Owners};
use super::region::{Form, Region};
use access::field_bits::FieldBits;
use book::book::RuleBook;
use table::matching::Matching;
use table::table::Table;

// How the entry that shows a region of a form matches addresses: as a number, its A field.
impl From<Form> for Matching {
    ghost from_gives = { λ form matching. matching ≡ matching_at (a_of form) };

    fn from(form: Form) -> Self {
        match form {
            Form::Na4 => Matching::Na4,
            Form::Napot => Matching::Napot,
            Form::Pair => Matching::Tor,
        }
    }
}

// What the address register says in the entry that shows a region.
fn top_address<const F: u32>(region: Region) -> u64
    ensures { Placeable F region → result ≡ top_address (form_of region.base region.length) region.base region.length }
{
    match region.form() {
        Form::Na4 => region.base / 4,
        Form::Napot => region.base / 4 + region.length / 8 - 1,
        Form::Pair => region.base / 4 + region.length / 4,
    }
}

// The address register of an owner's entry.
pub(crate) fn address_of<const F: u32>(owner: Owner) -> u64
    ensures { OwnerFits F owner → result ≡ address_of owner }
{
    match owner {
        Owner::Free => 0,
        Owner::Lower { region, .. } => region.base / 4,
        Owner::Upper { region, .. } => top_address::<F>(region),
    }
}

// The configuration byte of an owner's entry.
pub(crate) fn byte_of<B: RuleBook>(owner: Owner) -> u8
    ensures { result ≡ byte_of B.meaning owner }
{
    match owner {
        Owner::Free | Owner::Lower { .. } => 0,
        Owner::Upper { region, .. } => {
            B::byte_for(region.rights) + 8 * Matching::from(region.form()) as u8
        }
    }
}

impl<B: RuleBook, const F: u32> Entries<B, F> {
    // Entries that nobody uses.
    pub(crate) fn new(bits: FieldBits<F>) -> Self
        ensures owners { result.owners.cells ≡ replicate 64 Free }
        ensures registers { Resident B.meaning (regs result.table) result.owners.cells None }
    {
        Entries {
            table: Table::new(bits),
            owners: Owners {
                cells: [Owner::Free; 64],
            },
        }
    }

    // Gives entry i to an owner, and writes its registers.
    fn place(&mut self, i: usize, owner: Owner)
        requires entry { i < 64 }
        requires fits { OwnerFits F owner }
        ensures { self.new.owners.cells ≡ slice_set self.old.owners.cells i owner }
    {
        let byte = byte_of::<B>(owner);
        let address = address_of::<F>(owner);
        self.table.write_entry(i, byte, address).unwrap();
        self.owners.cells[i] = owner;
    }

    // Gives the entries from i to a task's region.
    pub(crate) fn occupy(&mut self, i: usize, form: Form, task: u64, region: Region)
        requires room { i + entries_of form ≤ 64 }
        requires placeable { Placeable F region }
        ensures { self.new.owners.cells ≡ occupied self.old.owners.cells form task region i }
    {
        let upper = Owner::Upper { task, region };
        match form {
            Form::Na4 | Form::Napot => self.place(i, upper),
            Form::Pair => {
                self.place(i, Owner::Lower { task, region });
                self.place(i + 1, upper);
            }
        }
    }

    // Frees the entries of a region of a form, the upper of which is i.
    fn free(&mut self, i: usize, form: Form)
        requires { i < 64 }
        ensures { self.new.owners.cells ≡ vacated_form form self.old.owners.cells i }
    {
        match form {
            Form::Na4 | Form::Napot => self.place(i, Owner::Free),
            Form::Pair => {
                self.place(i.saturating_sub(1), Owner::Free);
                self.place(i, Owner::Free);
            }
        }
    }

    // Frees the entries of the region that entry i shows.
    pub(crate) fn vacate(&mut self, i: usize)
        requires { i < 64 }
        ensures { self.new.owners.cells ≡ vacated self.old.owners.cells i }
    {
        if let Owner::Upper { region, .. } = self.owners.cells[i] {
            self.free(i, region.form());
        }
    }

    // Switches on exactly the entries of the selected task.
    pub(crate) fn switch_on(&mut self, selected: Option<u64>)
        ensures owners { self.new.owners.cells ≡ self.old.owners.cells }
        ensures registers { Resident B.meaning (regs self.new.table) self.new.owners.cells selected }
    {
        let switches = self.owners.switches(selected);
        self.table.write_switches(switches);
    }
}
