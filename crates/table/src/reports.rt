// The numbers of refusals.
ghost use Rattle.table.specs.RegisterCalls.{register_report};

use super::refusal::RegisterRefusal;
use access::numbered::Numbered;

impl Numbered for RegisterRefusal {
    ghost report = { register_report };

    fn number(self) -> u8 {
        match self {
            RegisterRefusal::NoSuchRegister => 31,
            RegisterRefusal::ShortBuffer => 32,
        }
    }
}
