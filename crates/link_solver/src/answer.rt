// What is said of the sums of a round.

/// Why the doubled value of a link is not twice a delay.
#[derive(Clone, Copy, Debug, PartialEq, Eq)]
pub enum Why {
    /// It is odd.
    Odd,
    /// It is below zero.
    Negative,
    /// It is more than twice the largest delay, `DELAY_LIMIT`.
    Large,
}

/// What is said of the sums of a round.
#[derive(Clone, Copy, Debug, PartialEq, Eq)]
pub enum Answer {
    /// One assignment has these sums.
    Solved,
    /// None has: the first link whose doubled value is not twice a delay, and the first reason for it.
    Link(u32, Why),
    /// None has: each link has a delay, and along this path, the first such, they add up to another sum.
    Path(u32),
}
