// A hart in either state.
use hart::harts::{SupervisorHart, UserHart};

#[derive(Drop)]
pub enum Hart<P> {
    Supervisor(SupervisorHart<P>),
    User(UserHart<P>),
}
