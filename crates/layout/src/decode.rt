// Layout files taken apart.
ghost use Rattle.std.specs.Prelude.{◌≡◌, IfOk};
ghost use Rattle.layout.specs.Records.{file_tasks, file_regions};
ghost use Rattle.layout.specs.Encoding.{encoded};
ghost use Rattle.layout.specs.Acceptance.{Accepts};
ghost use Rattle.layout.specs.Faults.{layout_fault};
ghost use Rattle.layout.specs.Refusals.{Answers};

use super::header::Header;
use super::layout::Layout;
use super::refusal::LayoutRefusal;
use super::regions::read_regions;
use super::tasks::read_tasks;
use std::alloc::Global;

impl Layout {
    // Takes a file apart, or says what is wrong with it.
    pub fn decode(heap: Global, file: &[u8]) -> Result<Layout, LayoutRefusal>
        ensures answer { Answers (layout_fault file.now) (λ l. (l.tasks.items ≡ file_tasks file.now) × (l.regions.items ≡ file_regions file.now)) result }
        ensures encoding { IfOk result (λ l. encoded l.tasks.items l.regions.items ≡ file.now) }
        ensures accepts { Accepts }
    {
        let (header, records) = file.split_first_chunk::<16>().ok_or(LayoutRefusal::Short)?;
        let header = Header::from(header);
        header.check(file.len())?;
        let middle = 8 * header.tasks as usize;
        let (task_part, region_part) = records.split_at(middle);
        let tasks = read_tasks(heap, task_part, header.regions)?;
        let regions = read_regions(heap, region_part, 16 + middle)?;
        Ok(Layout { tasks, regions })
    }
}
