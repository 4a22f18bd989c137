// The lookup of the entry that decides an access.
ghost use Rattle.std.specs.Prelude.{◌≡◌, ◌<◌, ◌↔◌, IsTrue};
ghost use Rattle.std.specs.Option.{ForSome};
ghost use Rattle.table.specs.Bounds.{pair_of};
ghost use Rattle.table.specs.Registers.{bounds_at};
ghost use Rattle.table.specs.Tables.{registers};
ghost use Rattle.table.specs.Checks.{AnyByte, EveryByte, active, Deciding, entry_number};

use super::bounds::Bounds;
use super::entries::PlainTable;
use super::span::Span;

impl Bounds {
    // Whether some byte of the access lies within.
    fn meets(self, span: Span) -> bool
        ensures { IsTrue result ↔ AnyByte (pair_of self) span.address span.width }
    {
        (self.first < self.end) & (self.first < span.end()) & (span.address < self.end)
    }

    // Whether every byte of the access does.
    fn covers(self, span: Span) -> bool
        ensures { IsTrue result ↔ EveryByte (pair_of self) span.address span.width }
    {
        (self.first <= span.address) & (span.end() <= self.end)
    }
}

impl<const F: u32> PlainTable<F> {
    // Whether entry i is active. OFF is 0 in the A field: to name the way of matching first would tell four apart and ask for one.
    fn is_active(&self, i: usize) -> bool
        requires { i < 64 }
        ensures { result ≡ active (registers self.now) i }
    {
        ((self.switches >> i) & 1 == 1) & ((self.entries[i].config >> 3) & 3 != 0)
    }

    // The lowest entry that is active and holds some byte of the access, if any does.
    pub(crate) fn deciding(&self, span: Span) -> Option<usize>
        ensures lowest { Deciding (registers self.now) span.address span.width (entry_number result) }
        ensures entry { ForSome result (λ i. i < 64) }
    {
        for (i, entry) in self.entries.iter().enumerate() {
            if self.is_active(i) && entry.bounds.meets(span) {
                return Some(i);
            }
        }
        None
    }

    // Whether entry i has every byte of the access.
    pub(crate) fn covers(&self, i: usize, span: Span) -> bool
        requires { i < 64 }
        ensures { IsTrue result ↔ EveryByte (bounds_at (registers self.now) i) span.address span.width }
    {
        self.entries[i].bounds.covers(span)
    }
}
