// How large a network is drawn, and how large its delays are. The words of `specs/Limits` have the same names.

/// The most nodes of a drawn network.
pub const DRAWN_NODE_LIMIT: u32 = 1_000;

/// The most links of a drawn network.
pub const DRAWN_LINK_LIMIT: u32 = 4_000;

/// Drawn delays are below this.
pub(crate) const DRAWN_DELAY_LIMIT: u32 = 1_000_000;
