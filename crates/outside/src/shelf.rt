// A shelf of named files.
ghost use Rattle.std.specs.Prelude.{◌≡◌, ◌≤◌, [], ℕ, List, Bool, Option};
ghost use Rattle.outside.specs.Causes.{Rose};
ghost use Rattle.outside.specs.Shelf.{Files, Gives, Asks, IsHonest};

use std::alloc::Global;

/// What a read that went well found: the whole content, or one longer than the limit.
#[derive(Clone, Copy, Debug, PartialEq, Eq)]
pub enum Got {
    Whole,
    TooLong,
}

/// Why a read gave nothing: memory could not be had, or the shelf failed.
#[derive(Clone, Copy, Debug, PartialEq, Eq)]
pub enum ShelfFault {
    NoMemory,
    Failed,
}

/// What a read answers.
pub type ReadAnswer = Result<Got, ShelfFault>;

/// A shelf of named files, each read whole.
pub trait Shelf {
    /// The bytes of each name, where the shelf tells them.
    ghost told: { Self → Option Files };

    /// The names asked for so far.
    ghost asked: { Self → List (List ℕ) };

    /// Whether it is sure not to fail at a name that it tells.
    ghost sure: { Self → Bool };

    /// How often it has failed.
    ghost faults: { Self → ℕ };

    /// Puts the content of a name into `out`, which is empty, if it has at most `limit` bytes;
    /// otherwise `out` stays empty. The name is kept among those asked for, which want of memory
    /// may prevent. It fails only where the count of faults rises, as at a name that it doesn't
    /// know.
    fn read(&mut self, alloc: Global, name: &str, limit: u64, out: &mut Vec<u8>) -> ReadAnswer
        requires { out.old.items ≡ [] }
        ensures told { told self.new ≡ told self.old }
        ensures sure { sure self.new ≡ sure self.old }
        ensures asks { Asks (asked self.old) (asked self.new) name.now result }
        ensures gives { Gives (told self.old) name.now limit result out.new.items }
        ensures later { faults self.old ≤ faults self.new }
        ensures cause { result ≡ Err ShelfFault.Failed → Rose (faults self.old) (faults self.new) }
        ensures honest { IsHonest (told self.old) (sure self.old) name.now
            (faults self.old) (faults self.new) result };
}
