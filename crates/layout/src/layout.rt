// A layout: tasks, and the regions that they part among them.
ghost use Rattle.std.specs.Prelude.{◌≡◌, length};
ghost use Rattle.layout.specs.Partition.{Consecutive, region_count};

use super::records::{RegionRecord, TaskRecord};

// Tasks stay index ranges into one list of regions, as in the file, since refusals name indices and places of the file.
#[derive(Drop)]
pub struct Layout {
    pub tasks: Vec<TaskRecord>,
    pub regions: Vec<RegionRecord>,
    ghost consecutive: { Consecutive tasks.items },
    ghost shared: { region_count tasks.items ≡ length regions.items },
}
