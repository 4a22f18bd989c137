// What the owner of one entry says.
ghost use Rattle.std.specs.Prelude.{◌≡◌, ◌<◌};
ghost use Rattle.grants.specs.Owners.{is_free, holds, begins, owner_overlaps};
ghost use Rattle.grants.specs.Images.{switched_on};

use super::owner::Owner;
use super::region::Region;

impl Owner {
    pub fn is_free(&self) -> bool
        ensures { result ≡ is_free self.now }
    {
        matches!(*self, Owner::Free)
    }

    // Whether it shows a region of the task.
    pub fn holds_for(&self, task: u64) -> bool
        ensures { result ≡ holds task self.now }
    {
        matches!(*self, Owner::Upper { task: holder, .. } if holder == task)
    }

    // Whether it shows a region of the task that begins at a base.
    pub fn begins_at(&self, task: u64, base: u64) -> bool
        ensures { result ≡ begins task base self.now }
    {
        matches!(*self, Owner::Upper { task: holder, region } if holder == task && region.base == base)
    }

    // Whether it shows a region of the task that overlaps.
    pub(crate) fn overlaps(&self, task: u64, other: &Region) -> bool
        requires { 0 < other.now.length }
        ensures { result ≡ owner_overlaps task other.now.base other.now.length self.now }
    {
        matches!(*self, Owner::Upper { task: holder, region } if holder == task && region.overlaps(other))
    }

    // Whether the entry is switched on under a selection. Lower and upper are two arms: as one, a bit would be shifted for each entry,
    // where a seldom taken branch is faster.
    pub fn is_on(&self, selected: Option<u64>) -> bool
        ensures { result ≡ switched_on selected self.now }
    {
        match *self {
            Owner::Free => false,
            Owner::Lower { task, .. } => selected == Some(task),
            Owner::Upper { task, .. } => selected == Some(task),
        }
    }
}
