// A sink that bytes are written to.
ghost use Rattle.std.specs.Prelude.{◌≤◌, ◌<◌, ℕ, List, Option, IfOk, OnErr, length};
ghost use Rattle.std.specs.Io.KnownBytes.{WriteAppends};
ghost use Rattle.outside.specs.Causes.{Rose};
ghost use Rattle.outside.specs.Sink.{TakesSure};

/// The sink could not take a piece.
#[derive(Clone, Copy, Debug, PartialEq, Eq)]
pub struct SinkFault;

/// A sink, which takes what it is handed piece by piece.
pub trait Sink {
    /// The bytes that it took, where it tells them.
    ghost taken: { Self → Option (List ℕ) };

    /// Of how many more bytes it is sure.
    ghost sure: { Self → ℕ };

    /// How often it has failed.
    ghost faults: { Self → ℕ };

    /// Takes the first bytes of a piece that is not empty, at least one of them, and answers how
    /// many it took. It fails only where the count of faults rises. It takes no memory.
    fn write(&mut self, bytes: &[u8]) -> Result<usize, SinkFault>
        requires { 0 < length bytes.now }
        ensures count { IfOk result (λ k. (0 < k) × (k ≤ length bytes.now)) }
        ensures taken { WriteAppends (taken self.old) (taken self.new) result bytes.now }
        ensures later { faults self.old ≤ faults self.new }
        ensures cause { OnErr result (Rose (faults self.old) (faults self.new)) }
        ensures sure { TakesSure (sure self.old) (sure self.new) (faults self.old) (faults self.new)
            bytes.now result };
}
