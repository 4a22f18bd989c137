// The listing of a loaded layout.
ghost use Rattle.std.specs.Prelude.{◌≡◌, ◌++◌, List, ℕ, Some, IfOk, OnOk, string_bytes};
ghost use Rattle.std.specs.List.{flat_map};
ghost use Rattle.layout.specs.Lines.{listing_text};

use super::lines::{EntryLine, SwitchLine};
use std::alloc::{AllocError, Global};
use std::fmt;

// Adds the text of each line, and its end after it.
fn push_lines<T: fmt::Display>(text: &mut String, lines: &[T], end: &str) -> Result<(), AllocError>
    ensures { OnOk result ((shown : T → List ℕ) → ((x : T) → T.output x ≡ Some (shown x)) → string_bytes text.new ≡ string_bytes text.old ++ flat_map (λ x. shown x ++ end.now) lines.now) }
{
    for line in lines {
        write!(text, "{line}{end}")?;
    }
    Ok(())
}

// The text of all lines: the entries, then the switches.
pub fn listing_text(
    heap: Global,
    entries: &[EntryLine],
    switches: &[SwitchLine],
) -> Result<String, AllocError>
    ensures { IfOk result (λ s. string_bytes s ≡ listing_text entries.now switches.now) }
{
    let mut text = String::new(heap);
    push_lines(&mut text, entries, "\n")?;
    push_lines(&mut text, switches, "\n")?;
    Ok(text)
}
