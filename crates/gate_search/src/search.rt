// Searches that stop at gates.
ghost use Rattle.std.specs.Prelude.{◌≡◌, ◌≤◌, ◌<◌, ◌+◌, ◌++◌, [], ◌∷◌, ℕ, Bool, List, length, set, replicate, true, IfOk, OnOk, IfSome, IfNone};
ghost use Rattle.tomo_base.specs.Sets.{has, Within};
ghost use Rattle.tomo_base.specs.Search.{mark_of};
ghost use Rattle.gate_search.specs.Gates.{IsGateOf};
ghost use Rattle.gate_search.specs.Stops.{IsRoom, IsGateSearch, ArePassed, IsAtGate, IsGateless};

use crate::gates::{Gate, outer};
use std::alloc::Global;
use tomo_base::{Graph, NoMemory, Swept, look, reach};

/// A search from one free node over free nodes, breadth first, as far as it has come. It is begun anew as often as wanted, in the same
/// room: a new beginning costs what the last search reached.
#[derive(Drop)]
pub struct GateSearch {
    /// The node where the search began.
    pub start: u32,
    /// How many nodes of the order were looked at: no free neighbour of these is left out.
    pub head: usize,
    /// The nodes that were reached.
    pub found: Swept,
}

// Takes all nodes out of the order.
fn forget(n: u32, found: &mut Swept)
    requires room { IsRoom n found.old }
    ensures order { found.new.order.items ≡ [] }
    ensures parents { length found.new.parent.items ≡ n }
    ensures ranks { found.new.rank.items ≡ replicate n n }
{
    for k in 0..found.order.len() {
        let node = found.order[k];
        found.rank[node as usize] = n;
    }
    found.order.clear();
}

impl GateSearch {
    /// Room for searches over a graph of n nodes.
    pub fn new(alloc: Global, n: u32) -> Result<GateSearch, NoMemory>
        ensures { IfOk result (λ s. IsRoom n s.found) }
    {
        Ok(GateSearch {
            start: 0,
            head: 0,
            found: Swept {
                order: Vec::new(alloc),
                parent: vec![in alloc; 0; n as usize]?,
                rank: vec![in alloc; n; n as usize]?,
            },
        })
    }

    /// Forgets what was reached, and begins a search from the node x. The error is want of memory.
    pub fn start(&mut self, g: &Graph, x: u32) -> Result<(), NoMemory>
        requires room { IsRoom g.now.nodes self.old.found }
        requires node { x < g.now.nodes }
        ensures start { OnOk result (self.new.start ≡ x) }
        ensures head { OnOk result (self.new.head ≡ 0) }
        ensures search { OnOk result ((free : List Bool) → mark_of free x ≡ true → IsGateSearch g.now free self.new) }
    {
        forget(g.nodes(), &mut self.found);
        self.start = x;
        self.head = 0;
        reach(x, x, &mut self.found)?;
        Ok(())
    }

    /// Goes on to a node with a gate other than to c and d, and stops there; the node will be looked at again. None where there is no such
    /// gate: then all free nodes to which walks over free nodes lead from the start were looked at. Time is linear in the links of the nodes
    /// that are looked at.
    pub fn next_gate(
        &mut self,
        g: &Graph,
        nodes: &[bool],
        free: &[bool],
        c: u32,
        d: u32,
    ) -> Result<Option<Gate>, NoMemory>
        requires marks { length nodes.now ≡ g.now.nodes }
        requires free { length free.now ≡ g.now.nodes }
        requires search { IsGateSearch g.now free.now self.old }
        requires passed { ArePassed g.now (mark_of nodes.now) (mark_of free.now) self.old c d }
        ensures search { OnOk result (IsGateSearch g.now free.now self.new) }
        ensures start { OnOk result (self.new.start ≡ self.old.start) }
        ensures kept { OnOk result (Within (has self.old.found.order.items) (has self.new.found.order.items)) }
        ensures passed { OnOk result (ArePassed g.now (mark_of nodes.now) (mark_of free.now) self.new c d) }
        ensures found { IfOk result (λ o. IfSome o (IsGateOf g.now (mark_of nodes.now) (mark_of free.now) self.new.found.order.items c d)) }
        ensures none { IfOk result (λ o. IfNone o (length self.new.found.order.items ≤ self.new.head)) }
    {
        let _count = g.nodes();
        while self.head < self.found.order.len() {
            let inner = self.found.order[self.head];
            if let Some(outer) = outer(g, nodes, free, inner, c, d) {
                return Ok(Some(Gate { inner, outer }));
            }
            look(g, free, self.head, &mut self.found)?;
            self.head += 1;
        }
        Ok(None)
    }

    /// Begins a search from a free node with a gate: from x, or from the first with a gate that a search from x comes to. None where that
    /// search has come to its end and to no gate.
    pub fn start_at_gate(
        &mut self,
        g: &Graph,
        nodes: &[bool],
        free: &[bool],
        x: u32,
    ) -> Result<Option<Gate>, NoMemory>
        requires marks { length nodes.now ≡ g.now.nodes }
        requires free { length free.now ≡ g.now.nodes }
        requires node { (x < g.now.nodes) × (mark_of free.now x ≡ true) }
        requires room { IsRoom g.now.nodes self.old.found }
        ensures search { OnOk result (IsGateSearch g.now free.now self.new) }
        ensures found { IfOk result (λ o. IfSome o (IsAtGate g.now (mark_of nodes.now) (mark_of free.now) self.new)) }
        ensures none { IfOk result (λ o. IfNone o (IsGateless g.now (mark_of nodes.now) (mark_of free.now) self.new x)) }
    {
        let n = g.nodes();
        self.start(g, x)?;
        let Some(gate) = self.next_gate(g, nodes, free, n, n)? else {
            return Ok(None);
        };
        if gate.inner == x {
            return Ok(Some(gate));
        }
        self.start(g, gate.inner)?;
        Ok(Some(gate))
    }
}
