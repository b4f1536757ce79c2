// A shelf in memory.
ghost use Rattle.std.specs.Prelude.{◌≡◌, ◌≤◌, ◌++◌, [], ◌∷◌, Some, OnOk, OnErr, map, string_bytes, option_map};
ghost use Rattle.std.specs.Ordering.{nat_cmp};
ghost use Rattle.std.specs.Cmp.Lexicographic.{slice_cmp};
ghost use Rattle.std.specs.FinMap as finmap;
ghost use Rattle.outside.specs.Causes.{Rose};
ghost use Rattle.outside.specs.Memory.{none_set, AnswersRead, after_read};
ghost use Rattle.outside.specs.Shelf.{Gives, Asks, IsHonest};

use crate::scripted::is_set_to_fail;
use crate::{Got, ReadAnswer, Shelf, ShelfFault};
use std::alloc::Global;
use std::collections::VecDeque;
use std::marker::Model;
use tomo_base::NoMemory;

/// Files in memory, with reads that are set to fail. It tells its content, and is sure of it as
/// long as no read is set to fail.
#[derive(Drop)]
pub struct MemShelf {
    alloc: Global,
    // the newest first
    files: VecDeque<(String, Vec<u8>)>,
    asked: Vec<String>,
    failing: Vec<u32>,
    reads: u64,
    faults: u64,
}

impl Model for MemShelf {
    ghost use Rattle.std.specs.Prelude.{map as mapped, string_bytes};
    ghost use Rattle.std.specs.FinMap.{from_entries};
    ghost use Rattle.outside.specs.Memory.{MemoryFiles, memory_files_code};

    ghost Value = { MemoryFiles };

    ghost coded = { memory_files_code };

    ghost view = { λ a. record {
      files = from_entries (mapped (λ f. (string_bytes f.0, f.1.items)) a.files.items);
      asked = mapped string_bytes a.asked.items;
      reads = a.reads;
      failing = a.failing.items;
      faults = a.faults;
    } };
}

impl MemShelf {
    /// No files, no reads so far, and none set to fail. It takes no memory.
    pub fn new(alloc: Global) -> Self
        ensures { result ≡ record {
          files = finmap.empty;
          asked = [];
          reads = 0;
          failing = [];
          faults = 0;
        } }
    {
        MemShelf {
            alloc,
            files: VecDeque::new(alloc),
            asked: Vec::new(alloc),
            failing: Vec::new(alloc),
            reads: 0,
            faults: 0,
        }
    }

    /// The name now gives these bytes, whatever it gave before.
    pub fn put(&mut self, name: &str, bytes: &[u8]) -> Result<(), NoMemory>
        ensures ok { OnOk result (self.new ≡ record self.old {
          files = finmap.insert self.old.files name.now bytes.now;
        }) }
        ensures err { OnErr result (self.new ≡ self.old) }
    {
        let name = String::from_str(self.alloc, name)?;
        let bytes = bytes.to_vec(self.alloc)?;
        self.files.push_front((name, bytes))?;
        Ok(())
    }

    /// The read with this number is to fail. Reads are counted from 1, from `new` on.
    pub fn fail_at(&mut self, call: u32) -> Result<(), NoMemory>
        ensures ok { OnOk result (self.new ≡ record self.old { failing = self.old.failing ++ call ∷ [] }) }
        ensures err { OnErr result (self.new ≡ self.old) }
    {
        self.failing.push(call)?;
        Ok(())
    }

    // What the next read answers, as the shelf stands.
    fn answer(&self, name: &str, limit: u64, out: &mut Vec<u8>) -> ReadAnswer
        requires { out.old.items ≡ [] }
        ensures { AnswersRead self.now name.now limit result out.new.items }
    {
        if is_set_to_fail(&self.failing, self.reads.saturating_add(1)) {
            return Err(ShelfFault::Failed);
        }
        match find(&self.files, name) {
            None => Err(ShelfFault::Failed),
            Some(bytes) if bytes.len() as u64 > limit => Ok(Got::TooLong),
            Some(bytes) => match out.extend_from_slice(bytes) {
                Ok(()) => Ok(Got::Whole),
                Err(_) => Err(ShelfFault::NoMemory),
            },
        }
    }
}

// The bytes that a name has.
fn find<'a>(files: &'a VecDeque<(String, Vec<u8>)>, name: &str) -> Option<&'a [u8]>
    ensures { option_map (λ s. s.now) result ≡ finmap.get (finmap.from_entries {R = slice_cmp nat_cmp}
        (map (λ f. (string_bytes f.0, f.1.items)) files.now.items)) name.now }
{
    for file in files {
        if name == file.0.as_str() {
            return Some(file.1.as_slice());
        }
    }
    None
}

impl Shelf for MemShelf {
    ghost told = { λ s. Some s.files };

    ghost asked = { λ s. s.asked };

    ghost sure = { λ s. none_set s.failing };

    ghost faults = { λ s. s.faults };

    fn read(&mut self, _alloc: Global, name: &str, limit: u64, out: &mut Vec<u8>) -> ReadAnswer
        requires { out.old.items ≡ [] }
        ensures told { Some self.new.files ≡ Some self.old.files }
        ensures sure { none_set self.new.failing ≡ none_set self.old.failing }
        ensures asks { Asks self.old.asked self.new.asked name.now result }
        ensures gives { Gives (Some self.old.files) name.now limit result out.new.items }
        ensures later { self.old.faults ≤ self.new.faults }
        ensures cause { result ≡ Err ShelfFault.Failed → Rose self.old.faults self.new.faults }
        ensures honest { IsHonest (Some self.old.files) (none_set self.old.failing) name.now
            self.old.faults self.new.faults result }

        // What it does exactly, which the clauses above leave open.
        ensures answers { AnswersRead self.old name.now limit result out.new.items }
        ensures after { self.new ≡ after_read self.old name.now result }
    {
        let asked = match String::from_str(self.alloc, name) {
            Ok(asked) => asked,
            Err(_) => return Err(ShelfFault::NoMemory),
        };
        if self.asked.reserve(1).is_err() {
            return Err(ShelfFault::NoMemory);
        }
        let result = self.answer(name, limit, out);
        if let Err(ShelfFault::NoMemory) = result {
            return result;
        }
        if self.asked.push(asked).is_err() {
            return Err(ShelfFault::NoMemory);
        }
        self.reads = self.reads.saturating_add(1);
        if let Err(ShelfFault::Failed) = result {
            self.faults = self.faults.saturating_add(1);
        }
        result
    }
}
