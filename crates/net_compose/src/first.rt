//! First values of nodes.

ghost use Rattle.std.specs.Prelude.{◌≡◌, ◌+◌, ◌*◌, ◌%◌, ◌==◌, ◌^◌, ◌<◌, ◌≤◌, true, false, fold, if◌then◌else◌, length, replicate, slice_set, IfOk};
ghost use Rattle.width_check.specs.Typed.{program_of};
ghost use Rattle.handshake_expand.specs.Layout.{root_request};
ghost use Rattle.cell_variable.specs.Variables.{high_first};
ghost use Rattle.net_compose.specs.Begins.{var_firsts};
ghost use Rattle.net_compose.specs.Translation.{vars_high};

use std::alloc::{AllocError, Global};
use width_check::Typed;

/// The rail of a bit that is high where the number's lowest bit is this one: rail t for 1, rail f for 0.
fn rail_of(value: u64, node: u32) -> u32
    requires { node + 1 < 2 ^ 32 }
    ensures value { result ≡ if value % 2 == 1 then node else node + 1 }
    ensures near { result ≤ node + 1 }
{
    if value % 2 == 1 { node } else { node + 1 }
}

/// Raises the rails of a variable's block that are high at first: one of each of its `width` bits, rail t where that
/// bit of `value` is 1, and rail f where it is 0. Higher bits of `value` don't count. The block's first node is `from`,
/// and `first` holds a value for each node of the net.
pub(crate) fn raise(first: &mut [bool], width: u8, value: u64, from: u32)
    requires room { from + 5 * width ≤ length first.old }
    requires few { length first.old < 2 ^ 32 }
    ensures raised { first.new
        ≡ fold (λ values node. slice_set values node true) first.old (high_first width value from) }
    ensures count { length first.new ≡ length first.old }
{
    let mut left = value;
    let mut node = from;
    for _bit in 0..width {
        let rail = rail_of(left, node);
        first[rail as usize] = true;
        left /= 2;
        node += 5;
    }
}

/// First values of so many nodes that are all low.
fn all_low(alloc: Global, count: usize) -> Result<Vec<bool>, AllocError>
    ensures { IfOk result (λ first. first.items ≡ replicate count false) }
{
    vec![in alloc; false; count]
}

/// First values as far as declarations go, one for each of `count` nodes: all are low except one rail of each bit of
/// each variable that is declared, by its first value. Hidden variables aren't among them. `firsts` are the first nodes
/// of the variables' blocks, as `firsts_of` returns them.
pub fn declared_values(
    alloc: Global,
    program: &Typed,
    firsts: &[u32],
    count: u32,
) -> Result<Vec<bool>, AllocError>
    requires firsts { firsts.now ≡ var_firsts (program_of program.now) }
    requires room { root_request (program_of program.now) ≤ count }
    ensures values { IfOk result (λ first. first.items ≡ fold (λ values node. slice_set values node true)
        (replicate count false) (vars_high (program_of program.now) 0 program.now.vars)) }
    ensures count { IfOk result (λ first. length first.items ≡ count) }
{
    let mut first = all_low(alloc, count as usize)?;
    let vars = program.vars();
    for var in 0..vars.len() {
        let declared = &vars[var];
        raise(&mut first, declared.width, declared.first, firsts[var]);
    }
    Ok(first)
}
