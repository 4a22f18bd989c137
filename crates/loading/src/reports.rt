// The line of a refused grant.
ghost use Rattle.std.specs.Prelude.{◌≡◌};
ghost use Rattle.loading.specs.Played.{refused_grant};
ghost use Rattle.loading.specs.Reports.{region_line};

use super::refusal::LoadRefusal;
use access::numbered::Numbered;
use layout::lines::RefusalLine;

// The line that a program prints of a refused grant.
impl From<LoadRefusal> for RefusalLine {
    ghost from_gives = { λ refusal line. line ≡ region_line (refused_grant refusal) };

    fn from(refused: LoadRefusal) -> Self {
        RefusalLine::OfRegion {
            number: refused.refusal.number(),
            task: (refused.task % 256) as u8,
            region: (refused.region % 256) as u8,
        }
    }
}
