// A small file, taken apart and spoiled.
use super::layout::Layout;
use super::lines::{EntryLine, SwitchLine};
use super::listing::listing_text;
use super::records::{RegionRecord, TaskRecord};
use super::refusal::LayoutRefusal;
use std::alloc::Global;
use std::test::Fail;

// Two tasks with three regions.
const EXAMPLE: &[u8; 80] = b"\
    \x02\0\0\0\x03\0\0\0\x10\0\0\0\x20\0\0\0\
    \0\0\0\0\x02\0\0\0\x02\0\0\0\x01\0\0\0\
    \0\0\0\x20\0\x04\0\0\x05\0\0\0\0\0\0\0\
    \0\x04\0\x20\0\x06\0\0\x03\0\0\0\0\0\0\0\
    \0\0\0\x04\x01\0\0\0\x01\0\0\0\0\0\0\0";

#[test]
fn takes_the_example_apart(rt: HostRuntime) -> Result<(), Fail> {
    let layout = Layout::decode(rt.alloc(), EXAMPLE)?;
    assert_eq!(rt; layout.tasks.len(), 2);
    assert_eq!(rt; layout.regions.len(), 3);
    let second = TaskRecord { first: 2, count: 1 };
    assert_eq!(rt; layout.tasks.get(1).copied(), Some(second));
    let middle = RegionRecord {
        base: 0x20000400,
        length: 0x600,
        rights: 3,
    };
    assert_eq!(rt; layout.regions.get(1).copied(), Some(middle));
    Ok(())
}

// The refusal of a file.
fn refusal(heap: Global, file: &[u8]) -> Option<LayoutRefusal> {
    match Layout::decode(heap, file) {
        Ok(_) => None,
        Err(refusal) => Some(refusal),
    }
}

// The refusal of the example with one byte changed.
fn spoiled(heap: Global, place: usize, byte: u8) -> Option<LayoutRefusal> {
    let mut file = *EXAMPLE;
    if place < 80 {
        file[place] = byte;
    }
    refusal(heap, &file)
}

#[test]
fn refuses_with_places(rt: HostRuntime) {
    let heap = rt.alloc();
    assert_eq!(rt; refusal(heap, &[]), Some(LayoutRefusal::Short));
    let many = LayoutRefusal::TooMany { place: 0 };
    assert_eq!(rt; spoiled(heap, 0, 17), Some(many));
    let whole = *EXAMPLE;
    let shape = LayoutRefusal::Shape { place: 80 };
    assert_eq!(rt; refusal(heap, &whole[0..79]), Some(shape));
    let partition = LayoutRefusal::Partition { place: 24 };
    assert_eq!(rt; spoiled(heap, 24, 3), Some(partition));
    let reserved = LayoutRefusal::Reserved { place: 44 };
    assert_eq!(rt; spoiled(heap, 45, 1), Some(reserved));
}

#[test]
fn lists_entries_first(rt: HostRuntime) -> Result<(), Fail> {
    let entry = EntryLine {
        number: 3,
        byte: 0x1d,
        address: 0x2000007f,
        task: 1,
    };
    let switch = SwitchLine {
        task: 1,
        low: 8,
        high: 0xabcd,
    };
    let text = listing_text(rt.alloc(), &[entry], &[switch])?;
    assert_eq!(rt;
        text.as_str(),
        "entry 03 1d 2000007f 01\nswitch 01 00000008 0000abcd\n"
    );
    Ok(())
}
