ghost use Rattle.std.specs.Prelude.{◌≡◌, ◌<◌};
ghost use Rattle.tm_gen.specs.Draws.{drawn, next};

use std::marker::Model;

/// What each state is multiplied by to give the next one.
const FACTOR: u64 = 6_364_136_223_846_793_005;

/// What is then added.
const SUMMAND: u64 = 1_442_695_040_888_963_407;

/// A stream of numbers that its state determines, and that state. Contracts see it as the state.
#[derive(Drop)]
pub struct Draws {
    state: u64,
}

impl Model for Draws {
    ghost use Rattle.std.specs.Prelude.{ℕ};

    ghost Value = { ℕ };

    ghost view = { λ draws. draws.state };
}

impl Draws {
    /// The stream that begins with a number.
    pub fn new(number: u64) -> Draws
        ensures { result ≡ number }
    {
        Draws { state: number }
    }

    /// The next number of the stream, below a limit.
    pub fn draw(&mut self, limit: u64) -> u64
        requires { 0 < limit }
        ensures number { result ≡ drawn self.old limit }
        ensures below { result < limit }
        ensures state { self.new ≡ next self.old }
    {
        self.state = self.state.wrapping_mul(FACTOR).wrapping_add(SUMMAND);
        (self.state >> 33) % limit
    }
}

#[cfg(test)]
mod tests {
    use super::*;

    #[test]
    fn draws_follow_from_the_number(rt: HostRuntime) {
        let mut draws = Draws::new(0);
        for value in [167_951_807, 218_396_424, 1_299_921_937] {
            assert_eq!(rt; draws.draw(0x8000_0000), value);
        }
    }
}
