//! The drivers of a completion tree.

ghost use Rattle.std.specs.Prelude.{◌≡◌, ◌+◌, ◌<◌, ◌^◌, ◌++◌, length, OnOk, IfOk};
ghost use Rattle.cell_parallel.specs.Trees.{level_rules, next_level, tree_rules};

use crate::driver::Driver;
use std::alloc::{AllocError, Global};

/// Adds the drivers that join each two nodes of a level, from the first on, and returns the nodes of the level above.
fn join_level(
    alloc: Global,
    nodes: &[u32],
    from: u32,
    drivers: &mut Vec<Driver>,
) -> Result<Vec<u32>, AllocError>
    requires { from + length nodes.now < 2 ^ 32 }
    ensures above { IfOk result (λ above. above.items ≡ next_level nodes.now from) }
    ensures made { OnOk result (drivers.new.items ≡ drivers.old.items ++ level_rules nodes.now) }
{
    let mut above = Vec::new(alloc);
    let mut place = 0;
    let mut node = from;
    while place + 1 < nodes.len() {
        drivers.push(Driver::both(nodes[place], nodes[place + 1]))?;
        above.push(node)?;
        node += 1;
        place += 2;
    }
    above.extend_from_slice(&nodes[place..])?;
    Ok(above)
}

/// Adds the drivers of a completion tree (Martin) over the leaves, whose own nodes are numbered from `from` on, level
/// upon level.
pub fn tree(
    alloc: Global,
    leaves: &[u32],
    from: u32,
    drivers: &mut Vec<Driver>,
) -> Result<(), AllocError>
    requires { from + length leaves.now < 2 ^ 32 }
    ensures { OnOk result (drivers.new.items ≡ drivers.old.items ++ tree_rules leaves.now from) }
{
    let mut level = Vec::from_slice(alloc, leaves)?;
    let mut node = from;
    while level.len() > 1 {
        let joined = level.len() / 2;
        level = join_level(alloc, &level, node, drivers)?;
        node += joined as u32;
    }
    Ok(())
}
