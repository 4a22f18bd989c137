// A call of a run, with what came of it.
use history::call::{Answer, Call};

// The answer is none where the hart's state did not allow the call, which then was not made.
#[derive(Clone, Copy, PartialEq, Eq, Debug)]
pub struct Turn {
    pub call: Call,
    pub answer: Option<Answer>,
}
