// Plans of small networks, and a plan with another row in it.
use std::alloc::{AllocError, Global};

/// The plan of two links.
pub const TWO_LINKS_PLAN: &[u8] = b"plan,2
node,0,a
node,1,b
node,2,c
link,0,0,1
link,1,1,2
monitor,0
monitor,1
monitor,2
pocket,0,1,0
pocket,1,1,1
pocket,2,1,2
path,0,0 1
path,1,1 2
recipe,0,2:0
recipe,1,2:1
end
";

/// The plan of a ring of three nodes.
pub const RING_PLAN: &[u8] =
    b"plan,2\nnode,0,a\nnode,1,b\nnode,2,c\nlink,0,0,1\nlink,1,1,2\nlink,2,0,2\nmonitor,0\nmonitor,1\nmonitor,2\n\
    pocket,0,1,0\npocket,1,1,1\npocket,2,1,2\npath,0,0 1\npath,1,0 2\npath,2,1 2\nrecipe,0,2:0\nrecipe,1,2:2\n\
    recipe,2,2:1\nend\n";

/// The plan of the star.
pub const STAR_PLAN: &[u8] = b"plan,2
node,0,c
node,1,x
node,2,y
node,3,z
link,0,0,1
link,1,0,2
link,2,0,3
monitor,1
monitor,2
monitor,3
pocket,0,1,1
pocket,1,1,2
pocket,2,1,3
path,0,1 0 2
path,1,1 0 3
path,2,2 0 3
recipe,0,1:0 1:1 -1:2
recipe,1,1:0 -1:1 1:2
recipe,2,-1:0 1:1 1:2
end
";

/// The plan of the star for its leaves as given monitors: no pockets.
pub const STAR_PATHS: &[u8] =
    b"plan,2\nnode,0,c\nnode,1,x\nnode,2,y\nnode,3,z\nlink,0,0,1\nlink,1,0,2\nlink,2,0,3\nmonitor,1\nmonitor,2\nmonitor,3\n\
    path,0,1 0 2\npath,1,1 0 3\npath,2,2 0 3\nrecipe,0,1:0 1:1 -1:2\nrecipe,1,1:0 -1:1 1:2\nrecipe,2,-1:0 1:1 1:2\nend\n";

/// The plan of four nodes, each two of them linked.
pub const COMPLETE_PLAN: &[u8] = b"plan,2
node,0,a
node,1,b
node,2,c
node,3,d
link,0,0,1
link,1,0,2
link,2,0,3
link,3,1,2
link,4,1,3
link,5,2,3
monitor,0
monitor,1
monitor,2
pocket,0,3,0 1 2 3
path,0,0 1
path,1,0 2
path,2,0 3 1
path,3,0 3 2
path,4,1 2
path,5,1 3 2
recipe,0,2:0
recipe,1,2:1
recipe,2,1:2 1:3 -1:5
recipe,3,2:4
recipe,4,1:2 -1:3 1:5
recipe,5,-1:2 1:3 1:5
end
";

/// A plan of two triangles joined by a link, written by hand, with a path more than links.
pub const TRIANGLES_PLAN: &[u8] = b"plan,2
node,0,a
node,1,b
node,2,c
node,3,d
node,4,e
node,5,f
link,0,0,1
link,1,0,2
link,2,1,2
link,3,2,3
link,4,3,4
link,5,3,5
link,6,4,5
monitor,0
monitor,1
monitor,4
monitor,5
pocket,0,1,0
pocket,1,1,1
pocket,2,1,4
pocket,3,1,5
path,0,0 1
path,1,0 2 1
path,2,0 2 3 4
path,3,0 2 3 5
path,4,1 2 3 4
path,5,1 2 3 5
path,6,4 3 5
path,7,4 5
recipe,0,2:0
recipe,1,1:1 1:2 -1:4
recipe,2,1:1 -1:2 1:4
recipe,3,-1:1 1:2 1:5 -1:6
recipe,4,1:2 -1:3 1:6
recipe,5,-1:2 1:3 1:6
recipe,6,2:7
end
";

/// The text with another row in place of the one with a number, counted from 1. Each row of the text ends with a line feed.
pub fn with_row(
    alloc: Global,
    text: &[u8],
    number: usize,
    row: &[u8],
) -> Result<Vec<u8>, AllocError> {
    let mut changed = Vec::new(alloc);
    let mut place = 0usize;
    for line in text[..text.len().saturating_sub(1)].split(|byte| *byte == b'\n') {
        place = place.wrapping_add(1);
        changed.extend_from_slice(if place == number { row } else { line })?;
        changed.push(b'\n')?;
    }
    Ok(changed)
}
