// The numbers, places and lines of refusals.
ghost use Rattle.std.specs.Prelude.{◌≡◌};
ghost use Rattle.std.specs.Option.{option_map};
ghost use Rattle.layout.specs.Refusals.{layout_report, place_of};
ghost use Rattle.layout.specs.Lines.{line_of};

use super::lines::RefusalLine;
use super::refusal::LayoutRefusal;

impl LayoutRefusal {
    // The number of a refusal of the file.
    pub fn number(self) -> Option<u8>
        ensures { result ≡ option_map (λ x. x.number) (layout_report self) }
    {
        match self {
            LayoutRefusal::Short => Some(61),
            LayoutRefusal::TooMany { .. } => Some(62),
            LayoutRefusal::Shape { .. } => Some(63),
            LayoutRefusal::Partition { .. } => Some(64),
            LayoutRefusal::Reserved { .. } => Some(65),
            LayoutRefusal::OutOfMemory => None,
        }
    }

    // The byte place of what is wrong with the file.
    pub fn place(self) -> Option<usize>
        ensures { result ≡ option_map place_of (layout_report self) }
    {
        match self {
            LayoutRefusal::Short => Some(0),
            LayoutRefusal::TooMany { place }
            | LayoutRefusal::Shape { place }
            | LayoutRefusal::Partition { place }
            | LayoutRefusal::Reserved { place } => Some(place),
            LayoutRefusal::OutOfMemory => None,
        }
    }

    // The line that a program prints of it, if it is about the file. (No `TryFrom`: want of memory is no failed conversion.)
    pub fn line(self) -> Option<RefusalLine>
        ensures { result ≡ option_map line_of (layout_report self) }
    {
        let number = self.number()?;
        let place = self.place()?;
        Some(RefusalLine::AtPlace { number, place })
    }
}
