// Nodes are told by their names.
ghost use Rattle.std.specs.Prelude.{◌≡◌, ◌<◌, ◌+◌, ◌^◌, ◌++◌, ◌∷◌, [], length, map, All, IfOk, OnOk, slice_index_or};
ghost use Rattle.answers.specs.Refusals.{only};

use rows::Rows;
use std::alloc::Global;
use tomo_base::{NoMemory, NodeSet};
use topology::Topology;

/// Adds the names of nodes as fields.
pub fn add_names(rows: &mut Rows, topology: &Topology, nodes: &[u32]) -> Result<(), NoMemory>
    requires nodes { All (λ v. v < topology.now.graph.nodes) nodes.now }
    requires room { length rows.old.current + length nodes.now < 2 ^ 32 }
    ensures { OnOk result (rows.new ≡ record rows.old {
      current = rows.old.current ++ map (λ v. slice_index_or topology.now.names v []) nodes.now;
    }) }
{
    for &v in nodes {
        rows.field(topology.name(v).as_bytes())?;
    }
    Ok(())
}

/// One row: a word, and the names of nodes.
pub fn naming_row(
    alloc: Global,
    word: &str,
    topology: &Topology,
    nodes: &NodeSet,
) -> Result<Rows, NoMemory>
    requires { All (λ v. v < topology.now.graph.nodes) nodes.now }
    ensures { IfOk result (λ rows. rows ≡ only ((word.now ∷ map (λ v. slice_index_or topology.now.names v []) nodes.now) ∷ [])) }
{
    let mut rows = Rows::new(alloc);
    rows.field(word.as_bytes())?;
    add_names(&mut rows, topology, nodes.as_slice())?;
    rows.close()?;
    Ok(rows)
}
