// Reads a layout from standard input, and prints its entries and switch words, or why it is refused.
#![tactic(auto)]

use loading::report::report_text;
use std::io;
use std::io::Read;

// One byte more than the longest layout has: an input of that length is refused for it, whatever follows.
const ENOUGH: u64 = 1169;

fn main(rt: HostRuntime) -> io::Result<()> {
    let mut file = Vec::new(rt.alloc());
    rt.stdin().take(ENOUGH).read_to_end(&mut file)?;
    let text = report_text(rt.alloc(), file.as_slice())?;
    rt.print(text)
}
