//! Numbers drawn from a seed.

ghost use Rattle.std.specs.Prelude.{◌≡◌, ◌<◌};
ghost use Rattle.replay_core.specs.Draws.{DrawExamples, drawn, drawn_on};

use std::marker::Model;

/// The factor and the summand by which one number follows from the last: those of Knuth's MMIX.
const FACTOR: u64 = 6_364_136_223_846_793_005;

const SUMMAND: u64 = 1_442_695_040_888_963_407;

/// A sequence of numbers that a seed fixes. Contracts see the number at which the sequence stands.
#[derive(Clone, Copy)]
pub struct Draws {
    number: u64,
}

impl Model for Draws {
    ghost use Rattle.std.specs.Prelude.{ℕ};

    ghost Value = { ℕ };

    ghost view = { λ draws. draws.number };

    ghost inverse = { λ number. record { number = number } };
}

impl Draws {
    /// The draws of this seed, before the first.
    pub fn new(n: u64) -> Draws
        ensures { result ≡ n }
    {
        Draws { number: n }
    }

    /// The next draw: a number below the bound.
    pub fn draw(&mut self, below: u64) -> u64
        requires { 0 < below }
        ensures value { result ≡ drawn self.old below }
        ensures within { result < below }
        ensures on { self.new ≡ drawn_on self.old }
    {
        self.number = self.number.wrapping_mul(FACTOR).wrapping_add(SUMMAND);
        (self.number >> 33) % below
    }
}

/// What the sequence of the seed 0 begins with.
pub fn draws_begin()
    ensures { DrawExamples }
{}
