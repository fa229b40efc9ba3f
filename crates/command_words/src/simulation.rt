//! What a simulation is asked for.

/// What a simulation is asked for.
#[derive(Clone, Copy)]
pub struct Simulation<'a> {
    /// The name of the rule file.
    pub net: &'a str,
    /// The name of the script.
    pub script: &'a str,
    /// The name of the order that chooses the moves.
    pub order: &'a str,
    /// What the order begins with.
    pub seed: u64,
    /// The most moves, at most 1,000,000.
    pub steps: u32,
    /// The value of the nodes that have rules at power-up, where one was given: that asks for a net with a reset node.
    pub power: Option<bool>,
    /// The name of the program text with whose rounds the run is compared, where one is given.
    pub against: Option<&'a str>,
}

/// What a timed simulation is asked for, in which delays say when each move comes.
#[derive(Clone, Copy)]
pub struct Timing<'a> {
    /// The name of the rule file.
    pub net: &'a str,
    /// The name of the script.
    pub script: &'a str,
    /// The name of the delay file.
    pub delays: &'a str,
    /// The most moves, at most 1,000,000.
    pub steps: u32,
    /// The value of the nodes that have rules at power-up, where one was given: that asks for a net with a reset node.
    pub power: Option<bool>,
    /// The name of the program text with whose rounds the run is compared, where one is given.
    pub against: Option<&'a str>,
}
