// The task records of a layout file.
ghost use Rattle.std.specs.Prelude.{◌≡◌, ◌≤◌, length};
ghost use Rattle.access.specs.Cases.{first_of};
ghost use Rattle.layout.specs.Records.{task_at, tasks_of};
ghost use Rattle.layout.specs.Faults.{task_cases};
ghost use Rattle.layout.specs.Refusals.{Answers};

use super::records::TaskRecord;
use super::refusal::LayoutRefusal;
use super::words::word_at;
use std::alloc::Global;

impl From<&[u8; 8]> for TaskRecord {
    ghost from_gives = { λ bytes task. task ≡ task_at bytes.now };

    fn from(bytes: &[u8; 8]) -> TaskRecord {
        TaskRecord {
            first: word_at(bytes, 0),
            count: word_at(bytes, 4),
        }
    }
}

// Reads the task records. The regions of each task follow those of the tasks before it, and together they have all `regions`.
pub(crate) fn read_tasks(
    heap: Global,
    bytes: &[u8],
    regions: u32,
) -> Result<Vec<TaskRecord>, LayoutRefusal>
    requires { length bytes.now ≤ 128 }
    ensures { Answers (first_of (task_cases regions 16 0 (tasks_of bytes.now))) (λ v. v.items ≡ tasks_of bytes.now) result }
{
    let mut tasks = Vec::new(heap);
    let mut sum = 0u32;
    let (records, _) = bytes.as_chunks::<8>();
    for (i, record) in records.iter().enumerate() {
        let task = TaskRecord::from(record);
        let place = 16 + 8 * i;
        if task.first != sum {
            return Err(LayoutRefusal::Partition { place });
        }
        if task.count > regions - sum {
            return Err(LayoutRefusal::Partition { place: place + 4 });
        }
        tasks.push(task)?;
        sum += task.count;
    }
    if sum != regions {
        return Err(LayoutRefusal::Partition { place: 4 });
    }
    Ok(tasks)
}
