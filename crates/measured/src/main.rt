// Worked cases: some proved on the definitions, the rest run on the unit and compared with what they should be.
#![tactic(auto)]

mod bound_cases;
mod check_cases;
mod grant_cases;
mod register_cases;
mod row_cases;
mod tally;
mod worked;

use std::io;
use table::bounds::Bounds;
use tally::Tally;

fn main(rt: HostRuntime) -> io::Result<()> {
    let mut tally = Tally::new(&rt);
    let Bounds { first, end } = worked::worked_cases();
    let page = format!(in tally.heap(); "{first:09x} to {end:09x}")?;
    tally.case(
        "the page of NAPOT 200001ff",
        page.as_str(),
        "080000000 to 080001000",
    )?;
    bound_cases::bounds(&mut tally)?;
    row_cases::spmp_rows(&mut tally)?;
    row_cases::guest_bytes(&mut tally)?;
    check_cases::example_table(&mut tally)?;
    grant_cases::grants(&mut tally)?;
    tally.close()
}
