// The region records of a layout file.
ghost use Rattle.std.specs.Prelude.{◌≡◌, ◌+◌, ◌≤◌, length};
ghost use Rattle.access.specs.Cases.{first_of};
ghost use Rattle.layout.specs.Records.{region_at, regions_of, fourths_of};
ghost use Rattle.layout.specs.Faults.{region_cases};
ghost use Rattle.layout.specs.Refusals.{Answers};

use super::records::RegionRecord;
use super::refusal::LayoutRefusal;
use super::words::word_at;
use std::alloc::Global;

impl From<&[u8; 16]> for RegionRecord {
    ghost from_gives = { λ bytes region. region ≡ region_at bytes.now };

    fn from(bytes: &[u8; 16]) -> RegionRecord {
        RegionRecord {
            base: word_at(bytes, 0),
            length: word_at(bytes, 4),
            rights: word_at(bytes, 8),
        }
    }
}

// Reads the region records, the first of which stands at `start`. The fourth word of each is zero.
pub(crate) fn read_regions(
    heap: Global,
    bytes: &[u8],
    start: usize,
) -> Result<Vec<RegionRecord>, LayoutRefusal>
    requires long { length bytes.now ≤ 1024 }
    requires placed { start ≤ 144 }
    ensures { Answers (first_of (region_cases (start + 12) (fourths_of bytes.now))) (λ v. v.items ≡ regions_of bytes.now) result }
{
    let mut regions = Vec::new(heap);
    let (records, _) = bytes.as_chunks::<16>();
    for (i, record) in records.iter().enumerate() {
        if word_at(record, 12) != 0 {
            let place = start + 16 * i + 12;
            return Err(LayoutRefusal::Reserved { place });
        }
        regions.push(RegionRecord::from(record))?;
    }
    Ok(regions)
}
