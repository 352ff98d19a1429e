// The part of a line not yet ended, as far as it is held.

ghost use Rattle.std.specs.Prelude.{◌≡◌, ◌≤◌, List, ℕ, [], ◌++◌, length, take};

use food_line::DIGITS;
use std::marker::Model;

// How many bytes of a line not yet ended are held. A line that has come to so many can only be
// refused for its length, however long it grows.
pub const HELD: usize = DIGITS + 1;

// The first `held` bytes; the others are 0. An array with its length, as memory is fixed and a console is
// `Copy`: of one with an `ArrayVec<u8, HELD>` in it, "`Copy` cannot be implemented for this type".
#[derive(Clone, Copy)]
pub struct Part {
    held: usize,
    bytes: [u8; HELD],
}

impl Model for Part {
    ghost use Rattle.std.specs.Prelude.{ℕ, List, take, length};
    ghost use Rattle.console.specs.Held.{filled, IsFilled, held_is, filled_is};

    ghost Value = { List ℕ };

    ghost view = { λ p. take p.held p.bytes };

    ghost invariant = { λ p. IsFilled p.held p.bytes };

    ghost inverse = { λ line. record { held = length line; bytes = filled line } };

    ghost inverse_ok = { λ p h i. record { held = held_is h i; bytes = filled_is h i } };
}

impl Part {
    // Nothing is held.
    pub fn new() -> Part
        ensures { result ≡ [] }
    {
        Part {
            held: 0,
            bytes: [0; HELD],
        }
    }

    // Holds more, as far as there is room.
    pub fn hold(&mut self, more: &[u8])
        ensures { self.new ≡ take HELD (self.old ++ more.now) }
    {
        let n = (HELD - self.held).min(more.len());
        let to = self.held + n;
        self.bytes[self.held..to].copy_from_slice(&more[..n]);
        self.held = to;
    }

    // What is held.
    pub fn line(&self) -> &[u8]
        ensures { result.now ≡ self.now }
    {
        &self.bytes[..self.held]
    }
}
