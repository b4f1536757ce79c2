// The files of the machine.
ghost use Rattle.std.specs.Prelude.{◌≡◌, ◌≤◌, ◌+◌, [], None, false};
ghost use Rattle.outside.specs.Causes.{Rose};
ghost use Rattle.outside.specs.Devices.{IsAfterRead, ReadsAll, TakesAtMost};
ghost use Rattle.outside.specs.Shelf.{Asks, Gives, IsHonest};

use crate::{Got, ReadAnswer, Shelf, ShelfFault};
use std::alloc::Global;
use std::fs;
use std::io::Read;
use std::marker::Model;
use std::rt::Files;

const PIECE: usize = 8192;

/// The files of the machine, seen as the names asked for so far and the number of failed reads.
/// It tells nothing of their content, and is sure of none.
#[derive(Drop)]
pub struct FileShelf<'a, R: Files> {
    alloc: Global,
    files: &'a R,
    asked: Vec<String>,
    faults: u64,
}

impl<'a, R: Files> Model for FileShelf<'a, R> {
    ghost use Rattle.std.specs.Prelude.{map, string_bytes};
    ghost use Rattle.outside.specs.Devices.{FileReads};

    ghost Value = { FileReads };

    ghost view = { λ s. record { asked = map string_bytes s.asked.items; faults = s.faults } };
}

impl<'a, R: Files> FileShelf<'a, R> {
    /// The files that main was given; nothing was asked for yet, and nothing failed. The names
    /// asked for are kept by `alloc`. It takes no memory.
    pub fn new(alloc: Global, files: &'a R) -> Self
        ensures { result ≡ record { asked = []; faults = 0 } }
    {
        FileShelf {
            alloc,
            files,
            asked: Vec::new(alloc),
            faults: 0,
        }
    }
}

// What a reader has left, up to `limit` bytes. Each turn takes at least one byte or ends, and the
// last is the one that brings more than the limit. A read that was interrupted has failed.
fn take_all<F: Read>(file: &mut F, limit: u64, out: &mut Vec<u8>) -> ReadAnswer
    requires { out.old.items ≡ [] }
    ensures reads { ReadsAll (F.remaining file.old) limit result out.new.items }
    ensures stops { TakesAtMost (F.remaining file.old) (F.remaining file.new) (limit + PIECE) }
{
    let mut buffer = [0; PIECE];
    loop {
        match file.read(&mut buffer) {
            Err(_) => {
                out.clear();
                return Err(ShelfFault::Failed);
            }
            Ok(0) => return Ok(Got::Whole),
            Ok(count) => {
                if count as u64 > limit - out.len() as u64 {
                    out.clear();
                    return Ok(Got::TooLong);
                }
                if out.extend_from_slice(&buffer[..count]).is_err() {
                    out.clear();
                    return Err(ShelfFault::NoMemory);
                }
            }
        }
    }
}

impl<'a, R: Files> Shelf for FileShelf<'a, R> {
    ghost told = { λ _. None };

    ghost asked = { λ s. s.asked };

    ghost sure = { λ _. false };

    ghost faults = { λ s. s.faults };

    fn read(&mut self, _alloc: Global, name: &str, limit: u64, out: &mut Vec<u8>) -> ReadAnswer
        requires { out.old.items ≡ [] }
        ensures asks { Asks self.old.asked self.new.asked name.now result }
        ensures gives { Gives None name.now limit result out.new.items }
        ensures later { self.old.faults ≤ self.new.faults }
        ensures cause { result ≡ Err ShelfFault.Failed → Rose self.old.faults self.new.faults }
        ensures honest { IsHonest None false name.now self.old.faults self.new.faults result }

        // It counts a fault exactly where it failed.
        ensures after { IsAfterRead self.old self.new name.now result }
    {
        let asked = match String::from_str(self.alloc, name) {
            Ok(asked) => asked,
            Err(_) => return Err(ShelfFault::NoMemory),
        };
        if self.asked.push(asked).is_err() {
            return Err(ShelfFault::NoMemory);
        }
        let result = match fs::open(self.files, name) {
            Ok(mut file) => take_all(&mut file, limit, out),
            Err(_) => Err(ShelfFault::Failed),
        };
        if let Err(ShelfFault::Failed) = result {
            self.faults = self.faults.saturating_add(1);
        }
        result
    }
}
