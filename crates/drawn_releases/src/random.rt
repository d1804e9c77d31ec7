//! Numbers drawn one after another.

ghost use Rattle.std.specs.Prelude.{◌≡◌, ◌<◌, ℕ};

use std::marker::Model;

/// A linear congruential generator of 64 bits. Contracts see its state.
#[derive(Debug, Drop)]
pub struct Random {
    state: u64,
}

impl Model for Random {
    ghost Value = { ℕ };

    ghost view = { λ r. r.state };
}

impl Random {
    ghost use Rattle.drawn_releases.specs.Generator.{next, drawn};

    /// A generator that begins in this state.
    pub fn new(number: u32) -> Random
        ensures { result ≡ number }
    {
        Random {
            state: number as u64,
        }
    }

    /// Draws a number below `count`.
    pub fn draw(&mut self, count: u32) -> u32
        requires { 0 < count }
        ensures value { result ≡ drawn count self.old }
        ensures less { result < count }
        ensures state { self.new ≡ next self.old }
    {
        self.state = self
            .state
            .wrapping_mul(6_364_136_223_846_793_005)
            .wrapping_add(1_442_695_040_888_963_407);
        ((self.state >> 33) % count as u64) as u32
    }
}
