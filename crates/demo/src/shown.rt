// A request as the demonstration prints it.
use access::access::{Mode, Request};
use std::fmt;

// As in `S+SUM load of 4 at 080000000`.
#[derive(Clone, Copy)]
pub struct Shown(pub Request);

fn mode_letter(mode: Mode) -> char {
    match mode {
        Mode::Machine => 'M',
        Mode::Supervisor => 'S',
        Mode::User => 'U',
    }
}

impl fmt::Display for Shown {
    fn fmt<W: fmt::Write>(&self, f: &mut fmt::Formatter<W>) -> fmt::Result {
        let request = self.0;
        let mode = mode_letter(request.mode);
        let sum = if request.sum { "+SUM" } else { "" };
        let kind = request.kind;
        let address = request.address;
        let width = request.width;
        write!(f, "{mode}{sum} {kind} of {width} at {address:09x}")
    }
}
