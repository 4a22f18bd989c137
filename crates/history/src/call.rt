// The calls of a run, and their answers.
use access::refusal::Refusal;
use grants::call::PlanCall;
use grants::refusal::GrantRefusal;

// What an access does, and where. A load and a fetch are two cases, since the statements about runs speak of either by its name.
#[derive(Clone, Copy, PartialEq, Eq, Debug)]
pub enum Access {
    Load {
        address: u64,
        width: u64,
    },
    Store {
        address: u64,
        width: u64,
        value: u64,
    },
    Fetch {
        address: u64,
        width: u64,
    },
}

#[derive(Clone, Copy, PartialEq, Eq, Debug)]
pub enum Call {
    // A grant, a withdrawal or a selection.
    Plan(PlanCall),
    // An access of the supervisor, with its SUM.
    Supervisor { sum: bool, access: Access },
    // The selected task is entered.
    Enter,
    // The task is left.
    Trap,
    // An access of the task that is entered.
    Task(Access),
}

// A Result of an Option would be no plainer: it needs a second enum for the two refusals, and two levels to match.
#[derive(Clone, Copy, PartialEq, Eq, Debug)]
pub enum Answer {
    // The call was accepted, or the store passed.
    Done,
    // The load or fetch passed, and gave this.
    Value(u64),
    // The grant, withdrawal or selection was refused.
    Declined(GrantRefusal),
    // The access was refused.
    Refused(Refusal),
}

// A call that was made, with its answer.
#[derive(Clone, Copy, PartialEq, Eq, Debug)]
pub struct Event {
    pub call: Call,
    pub answer: Answer,
}
