// The numbers of answers.
ghost use Rattle.std.specs.Prelude.{◌≡◌};
ghost use Rattle.history.specs.Answers.{number_of};

use super::call::Answer;
use access::numbered::Numbered;

impl Answer {
    // The number of a refusal; there is none where the call passed.
    pub fn number(self) -> Option<u8>
        ensures { result ≡ number_of self }
    {
        match self {
            Answer::Done => None,
            Answer::Value(_) => None,
            Answer::Declined(refusal) => Some(refusal.number()),
            Answer::Refused(refusal) => Some(refusal.number()),
        }
    }
}
