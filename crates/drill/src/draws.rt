// A generator of numbers.
ghost use Rattle.std.specs.Prelude.{◌≡◌, ◌<◌, ◌^◌};
ghost use Rattle.drill.specs.Draws as spec;

use std::marker::Model;

/// A generator of numbers: x becomes (1103515245 x + 12345) mod 2^31, as in the sample of the C standard, and gives the upper bits of
/// the new x.
#[derive(Drop)]
pub(crate) struct Draws {
    state: u32,
}

impl Model for Draws {
    ghost use Rattle.std.specs.Prelude.{ℕ, ◌<◌, ◌^◌};

    ghost Value = { ℕ };

    ghost view = { λ d. d.state };

    ghost invariant = { λ d. d.state < 2 ^ 31 };
}

impl Draws {
    /// The generator with this seed for its state.
    pub(crate) fn new(seed: u32) -> Draws
        requires { seed < 2 ^ 31 }
        ensures { result ≡ seed }
    {
        Draws { state: seed }
    }

    // The next number of 15 bits.
    #[tactic(auto, unfolding(crate::specs::Draws::next))]
    fn step(&mut self) -> u32
        ensures state { self.new ≡ spec.next self.old }
        ensures gives { result ≡ spec.step self.old }
        ensures small { result < 32768 }
    {
        let next = (1_103_515_245 * u64::from(self.state) + 12_345) % (1 << 31);
        self.state = next as u32;
        self.state / 65_536
    }

    /// The next number below `k`: the remainder of two steps' numbers put together, the first the high part.
    #[tactic(auto, unfolding(crate::specs::Draws::draw, crate::specs::Draws::state))]
    pub(crate) fn draw(&mut self, k: u32) -> u32
        requires { 0 < k }
        ensures state { self.new ≡ spec.state self.old 1 }
        ensures gives { result ≡ spec.draw k self.old }
        ensures below { result < k }
    {
        let high = self.step();
        let low = self.step();
        (32_768 * high + low) % k
    }
}
