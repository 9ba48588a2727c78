//! Draws from a number.

ghost use Rattle.std.specs.Prelude.{◌≡◌, ◌<◌, ◌^◌};
ghost use Rattle.made_input.specs.Draws as drawing;

/// The multiplier of Knuth's MMIX (The Art of Computer Programming, volume 2, section 3.3.4, table 1).
const MULTIPLIER: u64 = 6_364_136_223_846_793_005;

/// Its increment.
const INCREMENT: u64 = 1_442_695_040_888_963_407;

/// A linear congruential generator modulo 2^64. The same seed gives the same draws.
#[derive(Drop)]
pub struct Generator {
    state: u64,
}

impl Generator {
    /// One that begins with this state.
    pub fn new(seed: u64) -> Generator
        ensures { result.state ≡ seed }
    {
        Generator { state: seed }
    }

    /// The next draw: the 31 highest bits of the next state.
    pub fn draw(&mut self) -> u32
        ensures value { result ≡ drawing.draw self.old.state 0 }
        ensures below { result < 2 ^ 31 }
        ensures state { self.new.state ≡ drawing.state_after self.old.state 1 }
    {
        self.state = self.state.wrapping_mul(MULTIPLIER).wrapping_add(INCREMENT);
        (self.state >> 33) as u32
    }
}
