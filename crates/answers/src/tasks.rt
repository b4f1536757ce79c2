// What is done with what was read.

/// What is done with a topology alone. A further task is a variant here, an arm where it is answered, in code and in specs, and a line of
/// the table of commands, in code and in specs.
#[derive(Clone, Copy, Debug, PartialEq, Eq)]
pub enum TopologyTask {
    Plan,
    Components,
    Trees,
}

/// What is done with a topology and monitors.
#[derive(Clone, Copy, Debug, PartialEq, Eq)]
pub enum MonitorTask {
    Judge,
    Paths,
    Link,
}
