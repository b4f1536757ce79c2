// What a flow is asked for.

/// The source of the paths, and marks for each node: whether it is a target, and whether it is banned.
#[derive(Drop)]
pub struct Ask {
    pub source: u32,
    pub targets: Vec<bool>,
    pub banned: Vec<bool>,
}
