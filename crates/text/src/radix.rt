// Bases of numbers.
ghost use Rattle.std.specs.Prelude.{ℕ, ◌<◌, ◌≤◌};
ghost use Rattle.std.proofs.Common.{lit<, lit≤};

// A base whose digits are 0 to 9 and then the letters from a to z.
pub trait Radix {
    ghost BASE: { ℕ };

    const BASE: u32;

    ghost some_digit: { 0 < BASE };

    ghost letters_suffice: { BASE ≤ 36 };
}

#[derive(Clone, Copy)]
pub struct Decimal;

impl Radix for Decimal {
    ghost BASE = { 10 };

    const BASE: u32 = 10;

    ghost some_digit = { lit< tt };

    ghost letters_suffice = { lit≤ tt };
}

#[derive(Clone, Copy)]
pub struct Hexadecimal;

impl Radix for Hexadecimal {
    ghost BASE = { 16 };

    const BASE: u32 = 16;

    ghost some_digit = { lit< tt };

    ghost letters_suffice = { lit≤ tt };
}
