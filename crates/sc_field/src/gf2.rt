//! The field of two elements.
ghost use Rattle.std.specs.Prelude.{◌≡◌, ◌<◌, ◌==◌, bit_and, bit_xor};
ghost use Rattle.sc_field.specs.Gf2.{gf2_act};
ghost use Rattle.sc_field.specs.Laws.Gf2Laws.{gf2_field, gf2_numbered, gf2_action, gf2_exact, gf2_by_number};

use crate::field::Field;
use std::marker::Model;

/// An element of GF(2), with the number 0 or 1. In a contract it is its number.
#[derive(Clone, Copy, PartialEq, Eq, Debug)]
pub struct Gf2(u8);

impl Model for Gf2 {
    ghost use Rattle.std.specs.Prelude.{ℕ, ◌<◌};

    ghost Value = { ℕ };

    ghost view = { λ a. a.0 };

    ghost invariant = { λ a. a.0 < 2 };

    ghost inverse = { λ n. record { 0 = n } };
}

impl Field for Gf2 {
    ghost IsElement = { λ x. x < 2 };

    ghost zero = { 0 };

    ghost one = { 1 };

    ghost add = { bit_xor };

    ghost sub = { bit_xor };

    ghost mul = { bit_and };

    ghost inv = { λ x. x };

    ghost number = { λ x. x };

    ghost element = { λ n. n };

    ghost act = { gf2_act };

    fn zero() -> Self {
        Gf2(0)
    }

    fn one() -> Self {
        Gf2(1)
    }

    fn add(self, other: Self) -> Self {
        Gf2(self.0 ^ other.0)
    }

    // The difference is the sum, since two is zero.
    fn sub(self, other: Self) -> Self {
        self.add(other)
    }

    fn mul(self, other: Self) -> Self {
        Gf2(self.0 & other.0)
    }

    fn inv(self) -> Self {
        self
    }

    fn number(self) -> u8 {
        self.0
    }

    fn from_number(n: u8) -> Option<Self> {
        if n < 2 { Some(Gf2(n)) } else { None }
    }

    fn act(self, byte: u8) -> u8 {
        if self.0 == 0 { 0 } else { byte }
    }

    fn known(self) {}

    ghost field = { gf2_field };

    ghost numbered = { gf2_numbered };

    ghost action = { gf2_action };

    ghost exact = { gf2_exact };

    ghost by_number = { gf2_by_number };
}
