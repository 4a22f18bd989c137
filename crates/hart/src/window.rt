// A window on user memory: SUM is set while it is open.
ghost use Rattle.std.specs.Prelude.{◌≡◌, true};
ghost use Rattle.hart.specs.Status.{sum_of, with_sum};

use super::status::Status;

// An open window, which keeps the SUM that there was before.
pub struct Window<'a> {
    status: &'a mut Status,
    earlier: bool,
}

impl Drop for Window<'_> {
    // Puts SUM back, on every way out of the scope that opened the window.
    fn drop(self)
        ensures { self.exit.0.now.word ≡ with_sum self.entry.status.now.word self.entry.earlier }
    {
        let earlier = self.earlier;
        self.status.set_sum(earlier);
        let Window {
            status: _,
            earlier: _,
        } = self;
    }
}

impl<'a> Window<'a> {
    // Sets SUM until the window is dropped, which then leaves the word as it was before.
    pub fn open(status: &'a mut Status) -> Window<'a>
        ensures same { result.status.ghost_name ≡ status.entry.ghost_name }
        ensures value { result.status.now.word ≡ with_sum status.old.word true }
        ensures opened { sum_of result.status.now.word ≡ true }
        ensures back { with_sum result.status.now.word result.earlier ≡ status.old.word }
    {
        let earlier = status.sum();
        status.set_sum(true);
        Window { status, earlier }
    }

    // The status word with SUM set, by which the supervisor's accesses go in the window.
    pub fn status(&self) -> &Status
        ensures { result.now ≡ self.now.status.now }
    {
        self.status
    }
}
