// A hart with its tasks, and runs at work, from the first grant to the last answer.
#![tactic(auto)]

mod calls;
mod runs;
mod session;
mod windows;

use runs::runs;
use session::session;

fn main(rt: HostRuntime) -> anyhow::Result<()> {
    session(&rt)?;
    runs(&rt)
}
