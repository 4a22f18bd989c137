// What a hart's calls give, as answers of a run.
// Two of the three differ in the refusal alone: one impl for both would need a `From` for each refusal beside it.
ghost use Rattle.std.specs.Prelude.{◌≡◌};
ghost use Rattle.history.specs.Answers.{accepted, valued, stored};

use super::call::Answer;
use access::refusal::Refusal;
use grants::refusal::GrantRefusal;

// A grant, a withdrawal or a selection.
impl From<Result<(), GrantRefusal>> for Answer {
    ghost from_gives = { λ res a. a ≡ accepted res };

    fn from(res: Result<(), GrantRefusal>) -> Self {
        match res {
            Ok(()) => Answer::Done,
            Err(refusal) => Answer::Declined(refusal),
        }
    }
}

// A load or a fetch.
impl From<Result<u64, Refusal>> for Answer {
    ghost from_gives = { λ res a. a ≡ valued res };

    fn from(res: Result<u64, Refusal>) -> Self {
        match res {
            Ok(value) => Answer::Value(value),
            Err(refusal) => Answer::Refused(refusal),
        }
    }
}

// A store.
impl From<Result<(), Refusal>> for Answer {
    ghost from_gives = { λ res a. a ≡ stored res };

    fn from(res: Result<(), Refusal>) -> Self {
        match res {
            Ok(()) => Answer::Done,
            Err(refusal) => Answer::Refused(refusal),
        }
    }
}
