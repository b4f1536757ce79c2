// Links, numbered by first appearance.
ghost use Rattle.std.specs.Prelude.{◌≡◌, ◌<◌, [], length, IfOk, OnOk, OnErr};
ghost use Rattle.indexmap.specs.IndexSet.{insert_key};
ghost use Rattle.tomo_base.specs.Table.{in_order};
ghost use Rattle.topology.specs.Topology.{link_between, same_link};

use indexmap::IndexSet;
use std::alloc::Global;
use std::marker::Model;
use tomo_base::{Link, NoMemory};

/// Links, each once and with its lower end first, in the order of their first appearance.
#[derive(Drop)]
pub(crate) struct Links {
    ends: IndexSet<(u32, u32)>,
}

impl Model for Links {
    ghost use Rattle.std.specs.Prelude.{List, ◌<◌, length, map};
    ghost use Rattle.tomo_base.specs.declared.graph.Link.{Link};
    ghost use Rattle.topology.specs.Topology.{link_between};

    ghost Value = { List Link };

    ghost view = { λ a. map link_between a.ends.keys };
}

impl Links {
    /// No links. It takes no memory.
    pub(crate) fn new(alloc: Global) -> Links
        ensures { result ≡ [] }
    {
        Links {
            ends: IndexSet::new(alloc),
        }
    }

    /// How many links there are.
    pub(crate) fn len(&self) -> usize
        ensures { result ≡ length self.now }
    {
        self.ends.len()
    }

    /// Adds the link between two nodes, where it is new.
    pub(crate) fn add(&mut self, a: u32, b: u32) -> Result<(), NoMemory>
        ensures ok { OnOk result (self.new
            ≡ insert_key same_link self.old (in_order (link_between (a, b)))) }
        ensures err { OnErr result (self.new ≡ self.old) }
    {
        let ends = if b < a { (b, a) } else { (a, b) };
        self.ends.insert(ends)?;
        Ok(())
    }

    /// The links as a list.
    pub(crate) fn to_vec(&self, alloc: Global) -> Result<Vec<Link>, NoMemory>
        ensures { IfOk result (λ links. links.items ≡ self.now) }
    {
        let mut links = Vec::new(alloc);
        for (a, b) in self.ends.as_slice() {
            links.push(Link { a: *a, b: *b })?;
        }
        Ok(links)
    }
}
