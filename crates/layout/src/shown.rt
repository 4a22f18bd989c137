// The text of the lines.
ghost use Rattle.std.specs.Prelude.{Some};
ghost use Rattle.layout.specs.Lines.{entry_text, switch_text, refusal_text};

use super::lines::{EntryLine, RefusalLine, SwitchLine};
use std::fmt;
use text::fixed::{Decimal2, Hex2, Hex8};

impl fmt::Display for EntryLine {
    ghost output = { λ x. Some (entry_text x) };

    fn fmt<W: fmt::Write>(&self, f: &mut fmt::Formatter<W>) -> fmt::Result {
        let number = Decimal2::new(self.number);
        let byte = Hex2::new(self.byte);
        let address = Hex8::new(self.address);
        let task = Decimal2::new(self.task);
        write!(f, "entry {number} {byte} {address} {task}")
    }
}

impl fmt::Display for SwitchLine {
    ghost output = { λ x. Some (switch_text x) };

    fn fmt<W: fmt::Write>(&self, f: &mut fmt::Formatter<W>) -> fmt::Result {
        let task = Decimal2::new(self.task);
        let low = Hex8::new(self.low);
        let high = Hex8::new(self.high);
        write!(f, "switch {task} {low} {high}")
    }
}

impl fmt::Display for RefusalLine {
    ghost output = { λ x. Some (refusal_text x) };

    fn fmt<W: fmt::Write>(&self, f: &mut fmt::Formatter<W>) -> fmt::Result {
        match *self {
            RefusalLine::AtPlace { number, place } => {
                let number = Decimal2::new(number);
                write!(f, "refused {number} at {place}")
            }
            RefusalLine::OfRegion {
                number,
                task,
                region,
            } => {
                let number = Decimal2::new(number);
                let task = Decimal2::new(task);
                let region = Decimal2::new(region);
                write!(f, "refused {number} task {task} region {region}")
            }
        }
    }
}
