//! Whether a graph stays connected without any two nodes, and if not, which nodes part it; and which nodes no two others part from monitors.
#![tactic(auto)]

mod connection;
mod growing;
mod known;
mod marks;
mod meeting;
mod probing;
mod seeing;
mod single;

pub use connection::{Conn, three_connected};
pub use known::{Parting, Sought};
pub use probing::probe;
pub use seeing::seen;
