// Standard output.
ghost use Rattle.std.specs.Prelude.{◌≡◌, ◌≤◌, ◌<◌, None, IfOk, OnErr, length, take};
ghost use Rattle.std.specs.Io.KnownBytes.{Appends, WriteAppends};
ghost use Rattle.outside.specs.Causes.{Rose};
ghost use Rattle.outside.specs.Devices.{faults_after};
ghost use Rattle.outside.specs.Sink.{TakesSure};

use crate::{Sink, SinkFault};
use std::io;
use std::io::Write;
use std::marker::Model;

/// Standard output, seen as the number of failed writes. It tells nothing of what it took, and is
/// sure of no byte.
#[derive(Drop)]
pub struct StdSink<'a, R: Print> {
    out: io::Printer<'a, R>,
    faults: u64,
}

impl<'a, R: Print> Model for StdSink<'a, R> {
    ghost use Rattle.std.specs.Prelude.{ℕ};

    ghost Value = { ℕ };

    ghost view = { λ s. s.faults };
}

impl<'a, R: Print> StdSink<'a, R> {
    /// The standard output that main was given; nothing failed yet. It takes no memory.
    pub fn new(printer: &'a R) -> Self
        ensures { result ≡ 0 }
    {
        StdSink {
            out: io::writer(printer),
            faults: 0,
        }
    }
}

// Hands some of the bytes to a writer and flushes it. A writer that takes none has failed.
fn put_some<W: Write>(out: &mut W, bytes: &[u8]) -> Result<usize, SinkFault>
    ensures count { IfOk result (λ k. (0 < k) × (k ≤ length bytes.now)) }
    ensures taken { IfOk result (λ k.
        Appends (W.contents out.old) (W.contents out.new) (take k bytes.now)) }
{
    match out.write(bytes) {
        Ok(count) if 0 < count && out.flush().is_ok() => Ok(count),
        _ => Err(SinkFault),
    }
}

impl<'a, R: Print> Sink for StdSink<'a, R> {
    ghost taken = { λ _. None };

    ghost sure = { λ _. 0 };

    ghost faults = { λ s. s };

    fn write(&mut self, bytes: &[u8]) -> Result<usize, SinkFault>
        requires { 0 < length bytes.now }
        ensures count { IfOk result (λ k. (0 < k) × (k ≤ length bytes.now)) }
        ensures taken { WriteAppends None None result bytes.now }
        ensures later { self.old ≤ self.new }
        ensures cause { OnErr result (Rose self.old self.new) }
        ensures sure { TakesSure 0 0 self.old self.new bytes.now result }

        // It counts a fault exactly where it failed.
        ensures after { self.new ≡ faults_after self.old result }
    {
        let result = put_some(&mut self.out, bytes);
        if result.is_err() {
            self.faults = self.faults.saturating_add(1);
        }
        result
    }
}
