// A hart in supervisor mode and one in user mode, as two types: a call that the mode does not allow does not compile. (One type with a
// marker would need an impl for each marker, as there is now one for each type.)

// A hart in supervisor mode: it makes calls on its plan and enters the selected task.
#[derive(Drop)]
pub struct SupervisorHart<P> {
    pub(crate) plan: P,
}

// A hart in user mode: it makes the accesses of the selected task, and a trap leads back.
#[derive(Drop)]
pub struct UserHart<P> {
    pub(crate) plan: P,
}
