// Whether a grant is admitted, but for its room.
ghost use Rattle.std.specs.Prelude.{◌≡◌, true, Some};
ghost use Rattle.access.specs.Cases.{Gives};
ghost use Rattle.grants.specs.Regions.{asked};
ghost use Rattle.grants.specs.Owners.{held};
ghost use Rattle.grants.specs.Refusals.{grant_report, grant_cases};

use super::forms::is_region;
use super::owner::Owners;
use super::refusal::GrantRefusal;
use super::region::Region;
use access::access::Rights;
use access::field_bits::FieldBits;

// The number of tasks, and how many regions each can hold.
pub const TASKS: u64 = 16;

pub const REGIONS: usize = 8;

impl Owners {
    // The region that a grant asks for, unless it is refused before room is looked for.
    pub fn admit<const F: u32>(
        &self,
        bits: FieldBits<F>,
        task: u64,
        base: u64,
        length: u64,
        rights: u64,
    ) -> Result<Region, GrantRefusal>
        ensures { Gives grant_report (grant_cases F 16 (held self.now.cells task) (λ _. true) task base length rights) (λ g. asked base length rights ≡ Some g) result }
    {
        if task >= TASKS {
            return Err(GrantRefusal::NoSuchTask);
        }
        if !is_region(bits, base, length) {
            return Err(GrantRefusal::NotARegion);
        }
        let region = Region {
            base,
            length,
            rights: Rights::try_from(rights).map_err(|_| GrantRefusal::NotARightsSet)?,
        };
        if self.any_overlaps(task, &region) {
            return Err(GrantRefusal::Overlap);
        }
        if region.has_no_form(bits) {
            return Err(GrantRefusal::NoForm);
        }
        if self.regions_of(task) >= REGIONS {
            return Err(GrantRefusal::TooManyRegions);
        }
        Ok(region)
    }
}
