// Rows of neighbours: where a node stands in one, and the entry of a link in two.
ghost use Rattle.std.specs.Prelude.{◌≡◌, ◌≤◌, ◌<◌, ◌≢◌, length, All, Contains, HoldsAt, List, [], ◌∷◌, ◌++◌, IsTrue, OnOk, IfSome, IfNone, false, ℕ};
ghost use Rattle.std.specs.List.{AllWithin};
ghost use Rattle.tomo_base.specs.Network.{joins, any_joins};
ghost use Rattle.tomo_base.specs.Table.{in_order, Ascend, RowsAscend, AreHops, AreRows};
ghost use Rattle.tomo_base.specs.declared.graph.Link.{Link};

use crate::graph::{Hop, Link};
use std::alloc::AllocError;

// The link with its lower end first.
pub fn turned(link: Link) -> Link
    ensures { result ≡ in_order link }
{
    if link.b < link.a {
        Link {
            a: link.b,
            b: link.a,
        }
    } else {
        link
    }
}

// Where the node stands in the list, or has to stand.
pub fn place_of(hops: &[Hop], node: u32) -> usize
    requires { Ascend hops.now }
    ensures within { result ≤ length hops.now }
    ensures below { AllWithin (λ h. h.node < node) hops.now 0 result }
    ensures here { result < length hops.now → HoldsAt (λ h. node ≤ h.node) hops.now result }
{
    hops.partition_point(|hop| hop.node < node)
}

// The number of the link to the node.
pub fn link_to(hops: &[Hop], node: u32) -> Option<u32>
    requires { Ascend hops.now }
    ensures found { IfSome result (λ i. Contains hops.now (record { node = node; link = i })) }
    ensures none { IfNone result (All (λ h. h.node ≢ node) hops.now) }
{
    let place = place_of(hops, node);
    if place < hops.len() && hops[place].node == node {
        Some(hops[place].link)
    } else {
        None
    }
}

// Adds a hop to a list of hops where it belongs.
pub fn add_hop(hops: &mut Vec<Hop>, hop: Hop) -> Result<(), AllocError>
    requires { Ascend hops.old.items }
    ensures added { OnOk result ((links : List Link) (v : ℕ) (l : Link) → AreHops links v hops.old.items → IsTrue (joins l v hop.node) → any_joins links v hop.node ≡ false → hop.link ≡ length links → AreHops (links ++ l ∷ []) v hops.new.items) }
{
    let place = place_of(hops, hop.node);
    hops.insert(place, hop)?;
    Ok(())
}

// Enters a link in the rows of its two ends.
pub fn enter(rows: &mut [Vec<Hop>], link: Link, number: u32) -> Result<(), AllocError>
    requires ordered { link.a < link.b }
    requires within { link.b < length rows.old }
    requires rows { RowsAscend rows.old }
    ensures entered { OnOk result ((links : List Link) → AreRows links rows.old → any_joins links link.a link.b ≡ false → number ≡ length links → AreRows (links ++ link ∷ []) rows.new) }
    ensures length { length rows.new ≡ length rows.old }
{
    let low = &mut rows[link.a as usize];
    add_hop(
        low,
        Hop {
            node: link.b,
            link: number,
        },
    )?;
    let high = &mut rows[link.b as usize];
    add_hop(
        high,
        Hop {
            node: link.a,
            link: number,
        },
    )?;
    Ok(())
}
