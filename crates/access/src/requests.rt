// Requests by the mode that makes them.
ghost use Rattle.std.specs.Prelude.{◌≡◌, false};

use super::access::{Kind, Mode, Request};

impl Request {
    // Of machine mode, where SUM has no say.
    pub fn machine(kind: Kind, address: u64, width: u64) -> Self
        ensures { result ≡ record { mode = Mode.Machine; sum = false; kind = kind; address = address; width = width } }
    {
        Request {
            mode: Mode::Machine,
            sum: false,
            kind,
            address,
            width,
        }
    }

    // Of supervisor mode, with its SUM.
    pub fn supervisor(sum: bool, kind: Kind, address: u64, width: u64) -> Self
        ensures { result ≡ record { mode = Mode.Supervisor; sum = sum; kind = kind; address = address; width = width } }
    {
        Request {
            mode: Mode::Supervisor,
            sum,
            kind,
            address,
            width,
        }
    }

    // Of user mode, where SUM has no say.
    pub fn user(kind: Kind, address: u64, width: u64) -> Self
        ensures { result ≡ record { mode = Mode.User; sum = false; kind = kind; address = address; width = width } }
    {
        Request {
            mode: Mode::User,
            sum: false,
            kind,
            address,
            width,
        }
    }
}
