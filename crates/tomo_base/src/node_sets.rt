// Lists of node sets.
ghost use Rattle.std.specs.Prelude.{◌≡◌, ◌<◌, ◌+◌, ◌^◌, ◌++◌, [], ◌∷◌, length, OnOk, IfErr, OnErr, slice_index_or};

use crate::memory::NoMemory;
use crate::node_set::NodeSet;
use std::alloc::Global;
use std::marker::Model;

/// A list of node sets. Contracts see a list of ascending lists.
#[derive(Drop)]
pub struct NodeSets {
    sets: Vec<NodeSet>,
}

impl Model for NodeSets {
    ghost use Rattle.std.specs.Prelude.{ℕ, List, ◌<◌, ◌^◌, vec_len};

    ghost Value = { List (List ℕ) };

    ghost view = { λ s. s.sets.items };

    ghost invariant = { λ s. vec_len s.sets < 2 ^ 32 };
}

impl NodeSets {
    /// No sets. It takes no memory.
    pub fn new(alloc: Global) -> NodeSets
        ensures { result ≡ [] }
    {
        NodeSets {
            sets: Vec::new(alloc),
        }
    }

    /// Adds a set at the end. The error hands the set back, and comes for want of memory alone.
    pub fn push(&mut self, set: NodeSet) -> Result<(), NodeSet>
        requires { length self.old + 1 < 2 ^ 32 }
        ensures ok { OnOk result (self.new ≡ self.old ++ set ∷ []) }
        ensures handed_back { IfErr result (λ s. s ≡ set) }
        ensures err { OnErr result (self.new ≡ self.old) }
    {
        match self.sets.push(set) {
            Ok(()) => Ok(()),
            Err(refused) => Err(refused.value),
        }
    }

    /// How many sets there are.
    pub fn len(&self) -> u32
        ensures { result ≡ length self.now }
    {
        self.sets.len() as u32
    }

    /// The set at a place, counted from 0.
    pub fn at(&self, i: u32) -> &NodeSet
        requires { i < length self.now }
        ensures { result.now ≡ slice_index_or self.now i [] }
    {
        &self.sets[i as usize]
    }
}
