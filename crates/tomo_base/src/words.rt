// A list of words.
ghost use Rattle.std.specs.Prelude.{◌≡◌, ◌<◌, ◌+◌, ◌^◌, ◌++◌, [], ◌∷◌, length, OnOk, OnErr, slice_index_or};

use crate::memory::NoMemory;
use std::alloc::Global;
use std::marker::Model;

/// A list of texts, as the words of a command line.
#[derive(Drop)]
pub struct Words {
    alloc: Global,
    words: Vec<String>,
}

impl Model for Words {
    ghost use Rattle.std.specs.Prelude.{ℕ, List, map, string_bytes, ◌<◌, ◌^◌, vec_len};

    ghost Value = { List (List ℕ) };

    ghost view = { λ w. map string_bytes w.words.items };

    ghost invariant = { λ w. vec_len w.words < 2 ^ 32 };
}

impl Words {
    /// No words. It takes no memory.
    pub fn new(alloc: Global) -> Words
        ensures { result ≡ [] }
    {
        Words {
            alloc,
            words: Vec::new(alloc),
        }
    }

    /// Adds a word at the end.
    pub fn push(&mut self, word: &str) -> Result<(), NoMemory>
        requires { length self.old + 1 < 2 ^ 32 }
        ensures ok { OnOk result (self.new ≡ self.old ++ word.now ∷ []) }
        ensures err { OnErr result (self.new ≡ self.old) }
    {
        self.words.push(String::from_str(self.alloc, word)?)?;
        Ok(())
    }

    /// How many words there are.
    pub fn len(&self) -> u32
        ensures len { result ≡ length self.now }
    {
        self.words.len() as u32
    }

    /// The word at a place, counted from 0.
    pub fn at(&self, place: u32) -> &str
        requires { place < length self.now }
        ensures { result.now ≡ slice_index_or self.now place [] }
    {
        self.words[place as usize].as_str()
    }
}
