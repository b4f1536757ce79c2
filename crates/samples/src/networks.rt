// Small networks, each with a link in a row.

/// Two links.
pub const TWO_LINKS: &[u8] = b"a,b\nb,c\n";

/// A ring of three nodes.
pub const RING: &[u8] = b"a,b\nb,c\nc,a\n";

/// A star with three leaves.
pub const STAR: &[u8] = b"c,x\nc,y\nc,z\n";

/// Four nodes, each two of them linked.
pub const COMPLETE: &[u8] = b"a,b\na,c\na,d\nb,c\nb,d\nc,d\n";

/// The same with a leaf.
pub const COMPLETE_WITH_A_LEAF: &[u8] = b"a,b\na,c\na,d\nb,c\nb,d\nc,d\nd,e\n";

/// Two complete graphs on four nodes that share a node.
pub const SHARING_A_NODE: &[u8] = b"a,b\na,c\na,d\nb,c\nb,d\nc,d\nd,e\nd,f\nd,g\ne,f\ne,g\nf,g\n";

/// Two complete graphs on five nodes that share two nodes.
pub const SHARING_A_PAIR: &[u8] =
    b"a,b\na,c\na,d\na,e\nb,c\nb,d\nb,e\nc,d\nc,e\nd,e\na,f\na,g\na,h\nb,f\nb,g\nb,h\nf,g\nf,h\ng,h\n";

/// Two triangles joined by a link.
pub const TRIANGLES: &[u8] = b"a,b\na,c\nb,c\nc,d\nd,e\nd,f\ne,f\n";

/// A prism.
pub const PRISM: &[u8] = b"a,b\nb,c\nc,a\nd,e\ne,f\nf,d\na,d\nb,e\nc,f\n";

/// A ring of six nodes.
pub const HEXAGON: &[u8] = b"a,b\nb,c\nc,d\nd,e\ne,f\nf,a\n";

/// A ring of four nodes with a link between two opposite ones.
pub const CHORD: &[u8] = b"a,b\nb,c\nc,d\nd,a\na,c\n";

/// A campus: a ring of twenty core nodes with ten chords, and an access node at each; a header, a third column, names with commas.
pub const CAMPUS: &[u8] = b"from,to,ms
\"core, 0\",\"core, 1\",1
\"core, 1\",\"core, 2\",1
\"core, 2\",\"core, 3\",1
\"core, 3\",\"core, 4\",1
\"core, 4\",\"core, 5\",1
\"core, 5\",\"core, 6\",1
\"core, 6\",\"core, 7\",1
\"core, 7\",\"core, 8\",1
\"core, 8\",\"core, 9\",1
\"core, 9\",\"core, 10\",1
\"core, 10\",\"core, 11\",1
\"core, 11\",\"core, 12\",1
\"core, 12\",\"core, 13\",1
\"core, 13\",\"core, 14\",1
\"core, 14\",\"core, 15\",1
\"core, 15\",\"core, 16\",1
\"core, 16\",\"core, 17\",1
\"core, 17\",\"core, 18\",1
\"core, 18\",\"core, 19\",1
\"core, 19\",\"core, 0\",1
\"core, 0\",\"core, 10\",1
\"core, 1\",\"core, 11\",1
\"core, 2\",\"core, 12\",1
\"core, 3\",\"core, 13\",1
\"core, 4\",\"core, 14\",1
\"core, 5\",\"core, 15\",1
\"core, 6\",\"core, 16\",1
\"core, 7\",\"core, 17\",1
\"core, 8\",\"core, 18\",1
\"core, 9\",\"core, 19\",1
\"core, 0\",acc 0,1
\"core, 1\",acc 1,1
\"core, 2\",acc 2,1
\"core, 3\",acc 3,1
\"core, 4\",acc 4,1
\"core, 5\",acc 5,1
\"core, 6\",acc 6,1
\"core, 7\",acc 7,1
\"core, 8\",acc 8,1
\"core, 9\",acc 9,1
\"core, 10\",acc 10,1
\"core, 11\",acc 11,1
\"core, 12\",acc 12,1
\"core, 13\",acc 13,1
\"core, 14\",acc 14,1
\"core, 15\",acc 15,1
\"core, 16\",acc 16,1
\"core, 17\",acc 17,1
\"core, 18\",acc 18,1
\"core, 19\",acc 19,1
acc 0,acc 1,1
acc 1,acc 2,1
acc 2,acc 3,1
acc 3,acc 4,1
acc 4,acc 5,1
acc 5,acc 6,1
acc 6,acc 7,1
acc 7,acc 8,1
acc 8,acc 9,1
acc 9,acc 10,1
acc 10,acc 11,1
acc 11,acc 12,1
";
