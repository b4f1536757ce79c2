// A pool of numbered paths.
ghost use Rattle.std.specs.Prelude.{◌≡◌, ◌<◌, ◌≤◌, ◌+◌, ◌^◌, ◌++◌, [], ◌∷◌, length, take, IfOk, OnOk, OnErr, slice_index_or};
ghost use Rattle.simple_path.specs.Pools.{nodes_in};

use crate::span::Span;
use std::alloc::Global;
use std::marker::Model;
use tomo_base::NoMemory;

/// A list of paths, each a list of node numbers. Paths are numbered from 0 in the order in which they were added.
#[derive(Drop)]
pub struct PathPool {
    // the nodes of all paths, one path after the other
    nodes: Vec<u32>,
    // where each path stands there
    spans: Vec<Span>,
}

impl Model for PathPool {
    ghost use Rattle.std.specs.Prelude.{ℕ, List};
    ghost use Rattle.simple_path.specs.Region.{paths_in, IsRegion};

    ghost Value = { List (List ℕ) };

    ghost view = { λ p. paths_in p.nodes.items p.spans.items };

    ghost invariant = { λ p. IsRegion p.nodes.items p.spans.items };
}

impl PathPool {
    /// No paths. It takes no memory.
    pub fn new(alloc: Global) -> PathPool
        ensures { result ≡ [] }
    {
        PathPool {
            nodes: Vec::new(alloc),
            spans: Vec::new(alloc),
        }
    }

    /// Adds a path at the end, and answers its number. Earlier paths stay as they were. The path is copied; space grows by doubling, so
    /// the time is on average that of the path's nodes.
    pub fn add(&mut self, path: &[u32]) -> Result<u32, NoMemory>
        requires paths { length self.old + 1 < 2 ^ 31 }
        requires nodes { nodes_in self.old + length path.now < 2 ^ 31 }
        ensures ok { OnOk result (self.new ≡ self.old ++ path.now ∷ []) }
        ensures number { IfOk result (λ i. i ≡ length self.old) }
        ensures err { OnErr result (self.new ≡ self.old) }
    {
        let number = self.spans.len() as u32;
        let start = self.nodes.len() as u32;
        self.spans.reserve(1)?;
        self.nodes.extend_from_slice(path)?;
        self.spans.push(Span {
            start,
            end: self.nodes.len() as u32,
        })?;
        Ok(number)
    }

    /// How many paths there are. It takes no memory.
    pub fn len(&self) -> u32
        ensures len { result ≡ length self.now }
        ensures few { result < 2 ^ 31 }
        ensures few_nodes { nodes_in self.now < 2 ^ 31 }
    {
        self.spans.len() as u32
    }

    /// The path with a number. It takes no memory.
    pub fn path(&self, i: u32) -> &[u32]
        requires { i < length self.now }
        ensures { result.now ≡ slice_index_or self.now i [] }
    {
        let span = self.spans[i as usize];
        &self.nodes[span.start as usize..span.end as usize]
    }

    /// Keeps the first paths, as many as `len`. It takes no memory.
    pub fn cut_back(&mut self, len: u32)
        requires { len ≤ length self.old }
        ensures { self.new ≡ take len self.old }
    {
        let end = if len == 0 {
            0
        } else {
            self.spans[len as usize - 1].end
        };
        self.spans.truncate(len as usize);
        self.nodes.truncate(end as usize);
    }
}
