// Searches among the owners of the entries.
ghost use Rattle.std.specs.Prelude.{◌≡◌, ◌<◌, length as count};
ghost use Rattle.grants.specs.Owners.{held, owner_at, free_at, free_pair_at, lowest, LowestFound, room_for, found_at};
ghost use Rattle.grants.specs.Images.{switch_bits};
ghost use Rattle.grants.specs.Refusals.{any_overlaps};

use super::owner::{Owner, Owners};
use super::region::{Form, Region};

impl Owners {
    // The owner of entry n; there is none past 63.
    pub fn at(&self, n: usize) -> Owner
        ensures { result ≡ owner_at self.now.cells n }
    {
        self.cells.get(n).copied().unwrap_or(Owner::Free)
    }

    // Whether a region that the task holds overlaps.
    pub(crate) fn any_overlaps(&self, task: u64, region: &Region) -> bool
        requires { 0 < region.now.length }
        ensures { result ≡ any_overlaps (held self.now.cells task) region.now.base region.now.length }
    {
        self.cells.iter().any(|owner| owner.overlaps(task, region))
    }

    // How many regions the task holds.
    pub fn regions_of(&self, task: u64) -> usize
        ensures { result ≡ count (held self.now.cells task) }
    {
        self.cells
            .iter()
            .filter(|owner| owner.holds_for(task))
            .count()
    }

    // The lowest free entry.
    fn lowest_free(&self) -> Option<usize>
        ensures { result ≡ lowest (free_at self.now.cells) 64 }
    {
        self.cells.iter().position(|owner| owner.is_free())
    }

    // The lower of the lowest free neighbours. (Not over windows: of a walk that began elsewhere, these would say nothing provable.)
    fn lowest_pair(&self) -> Option<usize>
        ensures { result ≡ lowest (free_pair_at self.now.cells) 63 }
    {
        for i in 0..63 {
            if self.cells[i].is_free() & self.cells[i + 1].is_free() {
                return Some(i);
            }
        }
        None
    }

    // The lowest room for a region of a form.
    pub fn room(&self, form: Form) -> Option<usize>
        ensures { result ≡ room_for self.now.cells form }
    {
        match form {
            Form::Na4 | Form::Napot => self.lowest_free(),
            Form::Pair => self.lowest_pair(),
        }
    }

    // The entry that shows the task's region at a base.
    pub fn find(&self, task: u64, base: u64) -> Option<usize>
        ensures value { result ≡ found_at self.now.cells task base }
        ensures lowest { LowestFound }
    {
        self.cells
            .iter()
            .position(|owner| owner.begins_at(task, base))
    }

    // The switch bits of all entries under a selection: bit i is that of entry i.
    pub fn switches(&self, selected: Option<u64>) -> u64
        ensures { result ≡ switch_bits self.now.cells selected }
    {
        let mut bits: u64 = 0;
        for (i, owner) in self.cells.iter().enumerate() {
            if owner.is_on(selected) {
                bits |= 1 << i;
            }
        }
        bits
    }
}
