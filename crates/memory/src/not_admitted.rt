// The refusal of a memory.
ghost use Rattle.memory.specs.Refusals.{not_admitted_report};

use access::numbered::Numbered;

// The memory does not admit the access.
#[derive(Clone, Copy, PartialEq, Eq, Debug)]
pub struct NotAdmitted;

impl Numbered for NotAdmitted {
    ghost report = { not_admitted_report };

    fn number(self) -> u8 {
        52
    }
}
