//! The runs of the program: the words of a command line, the files that they name, what is answered, and what is written. The devices are
//! given by the caller.
#![tactic(auto)]

mod exit;
mod gather;
pub mod laws;
mod machine;
mod numbers;
mod output;
mod run;
mod table;
mod write;

pub use answers::Status;
pub use exit::{exit_status, fault_line};
pub use run::tomo;
