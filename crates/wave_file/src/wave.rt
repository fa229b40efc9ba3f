//! Waves.

use chp_base::Name;

/// What moved when: the names of some nodes, their first values, and the changes in order of their times, each by its
/// time and its node, which takes the opposite value.
#[derive(Drop)]
pub struct Wave {
    pub names: Vec<Name>,
    pub first: Vec<bool>,
    pub changes: Vec<(u64, u32)>,
}
