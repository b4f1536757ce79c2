// Why rows are no topology, or no monitors of one.
ghost use Rattle.std.specs.Prelude.{◌≡◌};
ghost use Rattle.topology.specs.declared.faults.TopoFault.TheVariants as topologies;
ghost use Rattle.topology.specs.declared.faults.MonFault.TheVariants as monitors;
ghost use Rattle.topology.specs.declared.faults.ChoiceFault.TheVariants as choices;

use thiserror::Error;
use tomo_base::NoMemory as WantOfMemory;

/// Why rows are no topology. Rows are numbered from 1, a header included.
#[derive(Clone, Copy, Debug, PartialEq, Eq, Error)]
pub enum TopoFault {
    /// Memory was wanted and could not be had.
    #[error("no memory")]
    NoMemory,
    /// The row has fewer than two fields.
    #[error("row {0}: fewer than two fields")]
    Width(u32),
    /// A name of the row is no name: it has 0 bytes, more than 64 bytes, or is not UTF-8.
    #[error("row {0}: a name is not 1 to 64 bytes of UTF-8")]
    Name(u32),
    /// The two names of the row are equal.
    #[error("row {0}: a link from a node to itself")]
    Loop(u32),
    /// With this row there are more nodes than `NODE_LIMIT`. The message takes no constant, so the number stands in it.
    #[error("row {0}: more than 2000 nodes")]
    Nodes(u32),
    /// With this row there are more links than `LINK_LIMIT`. The message takes no constant, so the number stands in it.
    #[error("row {0}: more than 8000 links")]
    Links(u32),
    /// There are fewer than three nodes, so many.
    #[error("{0} nodes, fewer than 3")]
    Few(u32),
    /// The least node that no walk joins to node 0.
    #[error("no walk joins node {0} to node 0")]
    Apart(u32),
}

// Whatever tells want of memory becomes this fault.
impl<E: Into<WantOfMemory> + Drop> From<E> for TopoFault {
    ghost from_gives = { λ _ e. e ≡ topologies.NoMemory };

    fn from(_e: E) -> TopoFault {
        TopoFault::NoMemory
    }
}

/// Why rows are no monitors of a topology. Rows are numbered from 1.
#[derive(Clone, Copy, Debug, PartialEq, Eq, Error)]
pub enum MonFault {
    /// Memory was wanted and could not be had.
    #[error("no memory")]
    NoMemory,
    /// The name in the row is the name of no node.
    #[error("row {0}: no node has this name")]
    Unknown(u32),
}

// Whatever tells want of memory becomes this fault.
impl<E: Into<WantOfMemory> + Drop> From<E> for MonFault {
    ghost from_gives = { λ _ e. e ≡ monitors.NoMemory };

    fn from(_e: E) -> MonFault {
        MonFault::NoMemory
    }
}

/// Why rows choose no nodes of a topology. Rows are numbered from 1.
#[derive(Clone, Copy, Debug, PartialEq, Eq, Error)]
pub enum ChoiceFault {
    /// Memory was wanted and could not be had.
    #[error("no memory")]
    NoMemory,
    /// The row has fewer than two fields.
    #[error("row {0}: fewer than two fields")]
    Width(u32),
    /// The first field is neither `must` nor `not`.
    #[error("row {0}: neither must nor not")]
    Word(u32),
    /// The name in the row is the name of no node.
    #[error("row {0}: no node has this name")]
    Unknown(u32),
    /// An earlier row names the node by the other word.
    #[error("row {0}: the node was named by the other word")]
    Clash(u32),
}

// Whatever tells want of memory becomes this fault.
impl<E: Into<WantOfMemory> + Drop> From<E> for ChoiceFault {
    ghost from_gives = { λ _ e. e ≡ choices.NoMemory };

    fn from(_e: E) -> ChoiceFault {
        ChoiceFault::NoMemory
    }
}
