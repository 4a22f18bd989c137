// Refusals have numbers.
ghost use Rattle.std.specs.Prelude.{◌≡◌};
ghost use Rattle.access.specs.Cases.{Report};

// A refusal that has a number, whatever call it comes from.
pub trait Numbered {
    // Its number and the values that it carries.
    ghost report: { Self → Report };

    fn number(self) -> u8
        ensures { result ≡ (report self).number };
}
