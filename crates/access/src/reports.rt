// The numbers and causes of refusals.
ghost use Rattle.std.specs.Prelude.{◌≡◌};
ghost use Rattle.access.specs.Refusals.{report_of, table_cause, memory_cause};

use super::access::Kind;
use super::numbered::Numbered;
use super::refusal::Refusal;

// Two functions of three constants: one with a flag would be no plainer, and each caller means one of them.
impl Kind {
    // The cause of an access of this kind that the table stopped.
    pub fn table_cause(self) -> u8
        ensures { result ≡ table_cause self }
    {
        match self {
            Kind::Fetch => 12,
            Kind::Load => 13,
            Kind::Store => 15,
        }
    }

    // The cause of an access of this kind that the memory did not admit.
    pub fn memory_cause(self) -> u8
        ensures { result ≡ memory_cause self }
    {
        match self {
            Kind::Fetch => 1,
            Kind::Load => 5,
            Kind::Store => 7,
        }
    }
}

impl Numbered for Refusal {
    ghost report = { report_of };

    fn number(self) -> u8 {
        match self {
            Refusal::Width => 41,
            Refusal::Range => 42,
            Refusal::Stopped(_) => 51,
            Refusal::NotAdmitted(_) => 52,
        }
    }
}
