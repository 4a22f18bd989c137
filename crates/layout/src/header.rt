// The header of a layout file.
ghost use Rattle.std.specs.Prelude.{◌≡◌};
ghost use Rattle.access.specs.Cases.{first_of};
ghost use Rattle.layout.specs.Records.{header_at};
ghost use Rattle.layout.specs.Faults.{shape_cases};
ghost use Rattle.layout.specs.Refusals.{Answers};

use super::refusal::LayoutRefusal;
use super::words::word_at;

// The four words that a layout file begins with.
#[derive(Clone, Copy)]
pub(crate) struct Header {
    pub(crate) tasks: u32,
    pub(crate) regions: u32,
    pub(crate) task_offset: u32,
    pub(crate) region_offset: u32,
}

impl From<&[u8; 16]> for Header {
    ghost from_gives = { λ bytes header. header ≡ header_at bytes.now };

    fn from(bytes: &[u8; 16]) -> Header {
        Header {
            tasks: word_at(bytes, 0),
            regions: word_at(bytes, 4),
            task_offset: word_at(bytes, 8),
            region_offset: word_at(bytes, 12),
        }
    }
}

impl Header {
    // Refuses counts above the limits, and offsets or a length of the file that the counts do not give.
    pub(crate) fn check(self, len: usize) -> Result<(), LayoutRefusal>
        ensures { Answers (first_of (shape_cases len self.tasks self.regions self.task_offset self.region_offset)) (λ _. Unit {0}) result }
    {
        if self.tasks > 16 {
            return Err(LayoutRefusal::TooMany { place: 0 });
        }
        if self.regions > 64 {
            return Err(LayoutRefusal::TooMany { place: 4 });
        }
        if self.task_offset != 16 {
            return Err(LayoutRefusal::Shape { place: 8 });
        }
        let region_offset = 16 + 8 * self.tasks;
        if self.region_offset != region_offset {
            return Err(LayoutRefusal::Shape { place: 12 });
        }
        let end = (region_offset + 16 * self.regions) as usize;
        if len != end {
            return Err(LayoutRefusal::Shape { place: end });
        }
        Ok(())
    }
}
