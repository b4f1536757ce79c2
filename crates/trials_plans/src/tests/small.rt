// Topologies of short texts.
ghost use Rattle.std.specs.Prelude.{◌<◌, ◌^◌, length};

use rows::read_rows;
use std::alloc::Global;
use std::test::Fail;
use topology::{Topology, read_topology};

pub const CHAIN: &[u8] = b"b,a\nb,c\n";

pub const PRISM: &[u8] = b"a,b\na,c\nb,c\nd,e\nd,f\ne,f\na,d\nb,e\nc,f\n";

/// The topology with these rows.
pub fn topology_of(alloc: Global, text: &[u8]) -> Result<Topology, Fail>
    requires { length text.now < 2 ^ 31 }
{
    let rows = read_rows(alloc, text)?;
    Ok(read_topology(alloc, &rows, false)?)
}
