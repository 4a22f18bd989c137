// Want of memory as a refusal.
ghost use Rattle.std.specs.Prelude.{◌≡◌};
ghost use Rattle.layout.specs.declared.refusal.LayoutRefusal.TheVariants.{OutOfMemory};

use super::refusal::LayoutRefusal;
use std::alloc::AllocFailed;

impl<T: Drop> From<AllocFailed<T>> for LayoutRefusal {
    ghost from_gives = { λ _ r. r ≡ OutOfMemory };

    fn from(_error: AllocFailed<T>) -> LayoutRefusal {
        LayoutRefusal::OutOfMemory
    }
}
