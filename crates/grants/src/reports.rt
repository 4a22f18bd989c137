// The numbers of refusals.
ghost use Rattle.grants.specs.Refusals.{grant_report};

use super::refusal::GrantRefusal;
use access::numbered::Numbered;

impl Numbered for GrantRefusal {
    ghost report = { grant_report };

    fn number(self) -> u8 {
        match self {
            GrantRefusal::NoSuchTask => 21,
            GrantRefusal::NotARegion => 22,
            GrantRefusal::NotARightsSet => 23,
            GrantRefusal::Overlap => 24,
            GrantRefusal::NoForm => 25,
            GrantRefusal::TooManyRegions => 26,
            GrantRefusal::NoRoom => 27,
            GrantRefusal::NotHeld => 28,
        }
    }
}
