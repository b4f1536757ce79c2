// Names, numbered by first appearance.
ghost use Rattle.std.specs.Prelude.{◌≡◌, ◌+◌, ◌^◌, ◌<◌, ◌≤◌, [], length, slice_index_or, position, bytes_eq, IfOk, OnOk, OnErr};
ghost use Rattle.tomo_base.specs.Limits.{node_limit};
ghost use Rattle.indexmap.specs.IndexSet.{insert_key};
ghost use Rattle.topology.specs.Numbered as spec;
ghost use Rattle.topology.specs.Topology.{node_of};

use indexmap::IndexSet;
use itoa::Buffer;
use std::alloc::Global;
use std::marker::Model;
use tomo_base::NoMemory;

/// Names, each once, in the order of their first appearance. The place of a name is its number.
#[derive(Drop)]
pub(crate) struct Names {
    numbers: IndexSet<String>,
}

impl Model for Names {
    ghost use Rattle.std.specs.Prelude.{ℕ, List, ◌<◌, ◌^◌, length, map};
    ghost use Rattle.std.specs.String.{string_bytes};

    ghost Value = { List (List ℕ) };

    ghost view = { λ a. map string_bytes a.numbers.keys };

    ghost invariant = { λ a. length a.numbers.keys < 2 ^ 32 };
}

impl Names {
    /// No names. It takes no memory.
    pub(crate) fn new(alloc: Global) -> Names
        ensures { result ≡ [] }
    {
        Names {
            numbers: IndexSet::new(alloc),
        }
    }

    /// The numbers below `n` in decimal, ascending.
    pub(crate) fn decimals(alloc: Global, n: u32) -> Result<Names, NoMemory>
        requires { n ≤ node_limit }
        ensures { IfOk result (λ names. names ≡ spec.decimals n) }
    {
        let mut names = Names::new(alloc);
        for v in 0..n {
            let mut digits = Buffer::new();
            names.number(alloc, digits.format(v))?;
        }
        Ok(names)
    }

    /// How many names there are.
    pub(crate) fn len(&self) -> u32
        ensures { result ≡ length self.now }
    {
        self.numbers.len() as u32
    }

    /// The name with that number.
    pub(crate) fn at(&self, number: u32) -> &str
        requires { number < length self.now }
        ensures { result.now ≡ slice_index_or self.now number [] }
    {
        self.numbers.as_slice()[number as usize].as_str()
    }

    /// The number of a name.
    pub(crate) fn find(&self, name: &str) -> Option<u32>
        ensures { result ≡ position (bytes_eq name.now) self.now }
    {
        let place = self.numbers.get_index_of(name)?;
        Some(place as u32)
    }

    /// The number of a name, which gets the next one where it is new.
    pub(crate) fn number(&mut self, alloc: Global, name: &str) -> Result<u32, NoMemory>
        requires { length self.old + 1 < 2 ^ 32 }
        ensures number { IfOk result (λ number. number ≡ node_of self.old name.now) }
        ensures names { OnOk result (self.new ≡ insert_key bytes_eq self.old name.now) }
        ensures err { OnErr result (self.new ≡ self.old) }
    {
        if let Some(number) = self.find(name) {
            return Ok(number);
        }
        let number = self.len();
        self.numbers.insert(String::from_str(alloc, name)?)?;
        Ok(number)
    }
}
