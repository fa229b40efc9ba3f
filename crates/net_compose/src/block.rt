//! The drivers of what is declared: of the wires of channels and of the blocks of variables.

ghost use Rattle.std.specs.Prelude.{◌≡◌, ◌+◌, ◌*◌, ◌<◌, ◌^◌, ◌++◌, [], ◌∷◌, replicate, IfOk, OnOk};
ghost use Rattle.prs_core.specs.Pairs.{no_rules, merged_true, merged_false};
ghost use Rattle.cell_variable.specs.Variables.{bit_at, bit_rules, written_leaves, variable_rules};
ghost use Rattle.net_compose.specs.Translation.{rail_rules};

use crate::contact::{Site, rails_at};
use crate::driver::Driver;
use crate::tree::tree;
use function_blocks::Bit;
use std::alloc::{AllocError, Global};

/// Adds so many nodes that no rule moves.
pub(crate) fn silent(count: u32, drivers: &mut Vec<Driver>) -> Result<(), AllocError>
    ensures { OnOk result (drivers.new.items ≡ drivers.old.items ++ replicate count no_rules) }
{
    for _node in 0..count {
        drivers.push(Driver::undriven())?;
    }
    Ok(())
}

/// Adds the merges of a bit: that of the sites' rails t and that of their rails f.
fn merges(
    alloc: Global,
    sites: &[Site],
    bit: u8,
    drivers: &mut Vec<Driver>,
) -> Result<(), AllocError>
    ensures { OnOk result (drivers.new.items
        ≡ drivers.old.items ++ merged_true sites.now bit ∷ merged_false sites.now bit ∷ []) }
{
    let trues = rails_at(alloc, sites, usize::from(bit), true)?;
    let falses = rails_at(alloc, sites, usize::from(bit), false)?;
    drivers.push(Driver::any(trues))?;
    drivers.push(Driver::any(falses))?;
    Ok(())
}

/// Adds the rails of a channel on which the program sends.
pub(crate) fn rails(
    alloc: Global,
    sites: &[Site],
    width: u8,
    drivers: &mut Vec<Driver>,
) -> Result<(), AllocError>
    ensures { OnOk result (drivers.new.items ≡ drivers.old.items ++ rail_rules sites.now 0 width) }
{
    for bit in 0..width {
        merges(alloc, sites, bit, drivers)?;
    }
    Ok(())
}

/// Adds a bit of a variable's block, whose five nodes are numbered from `from` on.
fn bit(
    alloc: Global,
    sites: &[Site],
    place: u8,
    from: u32,
    drivers: &mut Vec<Driver>,
) -> Result<(), AllocError>
    requires { from + 5 < 2 ^ 32 }
    ensures { OnOk result (drivers.new.items ≡ drivers.old.items ++ bit_rules sites.now place (bit_at from)) }
{
    let x = Bit::at(from);
    let w = Bit::at(from + 2);
    drivers.push(Driver::kept(w.t, x.f, w.f))?;
    drivers.push(Driver::kept(w.f, x.t, w.t))?;
    merges(alloc, sites, place, drivers)?;
    drivers.push(Driver::written(x, w))?;
    Ok(())
}

/// The nodes that say that a bit of a block is written.
fn leaves(alloc: Global, width: u8, from: u32) -> Result<Vec<u32>, AllocError>
    requires { from + 5 * width < 2 ^ 32 }
    ensures { IfOk result (λ nodes. nodes.items ≡ written_leaves width from) }
{
    let mut nodes = Vec::new(alloc);
    let mut node = from;
    for _bit in 0..width {
        nodes.push(node + 4)?;
        node += 5;
    }
    Ok(nodes)
}

/// Adds a variable's block, numbered from `from` on, which is written at these sites.
pub(crate) fn block(
    alloc: Global,
    sites: &[Site],
    width: u8,
    from: u32,
    drivers: &mut Vec<Driver>,
) -> Result<(), AllocError>
    requires { from + 6 * width < 2 ^ 32 }
    ensures { OnOk result (drivers.new.items ≡ drivers.old.items ++ variable_rules width from sites.now) }
{
    let mut node = from;
    for place in 0..width {
        bit(alloc, sites, place, node, drivers)?;
        node += 5;
    }
    let written = leaves(alloc, width, from)?;
    tree(alloc, &written, node, drivers)?;
    Ok(())
}
