// Kinds in words.
ghost use Rattle.std.specs.Prelude.{Some};
ghost use Rattle.access.specs.Kinds.{word_of};

use super::access::Kind;
use std::fmt;

impl fmt::Display for Kind {
    ghost output = { λ k. Some (word_of k) };

    fn fmt<W: fmt::Write>(&self, f: &mut fmt::Formatter<W>) -> fmt::Result {
        f.write_str(match self {
            Kind::Load => "load",
            Kind::Store => "store",
            Kind::Fetch => "fetch",
        })
    }
}
