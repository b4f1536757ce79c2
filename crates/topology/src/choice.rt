// The nodes that must be monitors, and those that must not, read from rows.
ghost use Rattle.std.specs.Prelude.{◌≡◌, ◌<◌, ◌+◌, ◌^◌, [], length, take, IfOk, IfErr, OnOk, All, None};
ghost use Rattle.tomo_base.specs.Sets.{has, Apart};
ghost use Rattle.rows.specs.Blanks as spec;
ghost use Rattle.topology.specs.Topology.{IsTopology};
ghost use Rattle.topology.specs.Choice.{wish_named, wished, opposite, choice_of, choice_fault_at, AreFineChoices, HasChoiceFault, HasWish, IsChoiceFault, IsChoiceOf};

use crate::faults::ChoiceFault;
use crate::topology::Topology;
use rows::{Rows, trimmed};
use std::alloc::Global;
use tomo_base::NodeSet;

/// Nodes of a topology that must be monitors, and nodes that must not. What is read has no node in both.
#[derive(Drop)]
pub struct Choice {
    /// The nodes that must be monitors.
    pub must: NodeSet,
    /// The nodes that must not.
    pub not: NodeSet,
}

// What a row wishes for its node.
#[derive(Clone, Copy, Debug, PartialEq, Eq)]
pub(crate) enum Wish {
    Must,
    Not,
}

// The wish in a field, without the spaces and tabs at its ends.
fn wish_in(field: &[u8]) -> Option<Wish>
    ensures { result ≡ wish_named (spec.trimmed field.now) }
{
    match trimmed(field) {
        b"must" => Some(Wish::Must),
        b"not" => Some(Wish::Not),
        _ => None,
    }
}

impl Wish {
    // The opposite wish.
    fn opposite(self) -> Wish
        ensures { result ≡ opposite self }
    {
        match self {
            Wish::Must => Wish::Not,
            Wish::Not => Wish::Must,
        }
    }
}

// The wish of a row and its node, or the fault that the row has without the rows before.
fn wish_at(t: &Topology, rows: &Rows, place: u32) -> Result<(Wish, u32), ChoiceFault>
    requires place { place < length rows.now.closed }
    requires number { place + 1 < 2 ^ 32 }
    ensures wish { IfOk result (λ p. HasWish t.now.names rows.now.closed place p.0 p.1) }
    ensures topology { OnOk result (IsTopology t.now) }
    ensures fault { IfErr result (HasChoiceFault t.now.names rows.now.closed place) }
{
    let number = place + 1;
    if rows.width(place) < 2 {
        return Err(ChoiceFault::Width(number));
    }
    let Some(wish) = wish_in(rows.at(place, 0)) else {
        return Err(ChoiceFault::Word(number));
    };
    match t.node_in(rows.at(place, 1)) {
        Some(node) => Ok((wish, node)),
        None => Err(ChoiceFault::Unknown(number)),
    }
}

impl Choice {
    // The nodes of a wish.
    fn wished(&self, wish: Wish) -> &NodeSet
        ensures { result.now ≡ wished self.now wish }
    {
        match wish {
            Wish::Must => &self.must,
            Wish::Not => &self.not,
        }
    }

    // Takes in what one row says.
    fn add_row(&mut self, t: &Topology, rows: &Rows, place: u32) -> Result<(), ChoiceFault>
        requires place { place < length rows.now.closed }
        requires number { place + 1 < 2 ^ 32 }
        requires so_far { IsChoiceOf t.now (take place rows.now.closed) self.old }
        ensures takes { OnOk result (IsChoiceOf t.now (take (place + 1) rows.now.closed) self.new) }
        ensures fine { OnOk result (choice_fault_at t.now.names rows.now.closed place ≡ None) }
        ensures fault { IfErr result (HasChoiceFault t.now.names rows.now.closed place) }
    {
        let (wish, node) = wish_at(t, rows, place)?;
        if self.wished(wish.opposite()).has(node) {
            return Err(ChoiceFault::Clash(place + 1));
        }
        match wish {
            Wish::Must => self.must.insert(node)?,
            Wish::Not => self.not.insert(node)?,
        };
        Ok(())
    }
}

/// Reads the nodes that must be monitors and those that must not.
///
/// Each row says one of them by its first two fields, without the spaces and tabs at their ends: `must` or `not`, and the name of the
/// node. Further fields are not read. A node that two rows name by the same word counts once. The fault of the first row that has one is
/// answered; in one row `Width` comes before `Word`, `Unknown` and `Clash`. The rows are read once, in time near to their number.
pub fn read_choice(alloc: Global, t: &Topology, rows: &Rows) -> Result<Choice, ChoiceFault>
    ensures choice { IfOk result (λ c. c ≡ choice_of t.now.names rows.now.closed) }
    ensures apart { IfOk result (λ c. Apart (has c.must) (has c.not)) }
    ensures must_nodes { IfOk result (λ c. All (λ v. v < t.now.graph.nodes) c.must) }
    ensures not_nodes { IfOk result (λ c. All (λ v. v < t.now.graph.nodes) c.not) }
    ensures fine { OnOk result (AreFineChoices t.now.names rows.now.closed (length rows.now.closed)) }
    ensures fault { IfErr result (IsChoiceFault t.now.names rows.now.closed) }
{
    let mut choice = Choice {
        must: NodeSet::new(alloc),
        not: NodeSet::new(alloc),
    };
    for place in 0..rows.len() {
        choice.add_row(t, rows, place)?;
    }
    Ok(choice)
}
