// The check of an access against a table.
ghost use Rattle.std.specs.Prelude.{◌≡◌, ◌<◌, ◌↔◌, IsTrue};
ghost use Rattle.std.specs.Option.{ForSome};
ghost use Rattle.table.specs.Tables.{regs};
ghost use Rattle.table.specs.Checks.{Permitted, Checked, OneAnswer, entry_number};

use super::span::Span;
use super::table::Table;
use access::access::{Mode, Request};
use access::formed::well_formed;
use access::refusal::{Fault, Refusal};
use book::book::RuleBook;

// In the place of an entry's number, as fault records have it: no entry decides.
pub const NO_ENTRY: u8 = 64;

// The number of the deciding entry, as answers have it.
fn number_of(entry: Option<usize>) -> u8
    requires { ForSome entry (λ i. i < 64) }
    ensures { result ≡ entry_number entry }
{
    entry.map_or(NO_ENTRY, |i| i as u8)
}

impl<B: RuleBook, const F: u32> Table<B, F> {
    // What the deciding entry permits, or the book where there is none.
    fn permitted(&self, entry: Option<usize>, span: Span, request: Request) -> bool
        requires { ForSome entry (λ i. i < 64) }
        ensures { IsTrue result ↔ Permitted B.meaning (regs self.now) (entry_number entry) request.mode request.sum request.kind span.address span.width }
    {
        match entry {
            None => B::unmatched(request.mode),
            Some(i) => {
                self.plain.covers(i, span)
                    && B::permits(
                        self.plain.entries[i].config,
                        request.mode,
                        request.sum,
                        request.kind,
                    )
            }
        }
    }

    // Checks an access: the entry that passes it, 64 for none, or why it is refused. Inlined, so that constants in a request shorten it.
    #[inline(always)]
    pub fn check(&self, request: Request) -> Result<u8, Refusal>
        ensures answer { Checked F B.meaning (regs self.now) request.mode request.sum request.kind request.address request.width result }
        ensures one { OneAnswer F B.meaning }
    {
        let Request {
            mode,
            kind,
            address,
            width,
            ..
        } = request;
        well_formed(self.plain.bits, kind, address, width)?;
        if let Mode::Machine = mode {
            return Ok(NO_ENTRY);
        }
        let span = Span { address, width };
        let deciding = self.plain.deciding(span);
        let entry = number_of(deciding);
        if self.permitted(deciding, span, request) {
            Ok(entry)
        } else {
            Err(Refusal::Stopped(Fault {
                cause: kind.table_cause(),
                address,
                entry,
            }))
        }
    }
}
