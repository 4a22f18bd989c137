// The calls that alter a plan.

// A call changes which regions tasks hold, or which task is selected.
#[derive(Clone, Copy, PartialEq, Eq, Debug)]
pub enum PlanCall {
    Grant {
        task: u64,
        base: u64,
        length: u64,
        rights: u64,
    },
    Withdraw {
        task: u64,
        base: u64,
    },
    Select {
        task: u64,
    },
}
