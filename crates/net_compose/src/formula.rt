//! The drivers of a program's expressions, and of what a statement that sends, receives or writes has besides.

ghost use Rattle.std.specs.Prelude.{◌≡◌, ◌+◌, ◌*◌, ◌<◌, ◌^◌, ◌++◌, ◌∷◌, [], length, slice_set, IfOk, OnOk};
ghost use Rattle.prs_core.specs.Pairs.{no_rules, pairs_from};
ghost use Rattle.width_check.specs.Typed.{program_of};
ghost use Rattle.width_check.specs.Typing.{ReadsFrom};
ghost use Rattle.width_check.specs.Values.{IsWellFormed};
ghost use Rattle.width_check.specs.View.{formula_of};
ghost use Rattle.handshake_expand.specs.Layout.{formula_size, root_request};
ghost use Rattle.cell_channel.specs.Ends.{port_rules};
ghost use Rattle.cell_sequence.specs.Sequence.{q_child, q_latch, q_next};
ghost use Rattle.function_blocks.specs.Expressions.{formula_rules, formula_result};
ghost use Rattle.net_compose.specs.Begins.{var_firsts};
ghost use Rattle.net_compose.specs.Translation.{bits_at, q_rules};

use crate::driver::Driver;
use function_blocks::{Bit, RailDriver, expr_drivers};
use std::alloc::{AllocError, Global};
use width_check::{TExpr, Typed};

/// Adds nodes of an expression.
pub(crate) fn add_rails(rails: Vec<RailDriver>, drivers: &mut Vec<Driver>) -> Result<(), AllocError>
    ensures { OnOk result (drivers.new.items ≡ drivers.old.items ++ rails.items) }
{
    for rail in rails {
        drivers.push(Driver::rail(rail))?;
    }
    Ok(())
}

/// Adds the drivers of an expression of the program, whose nodes are numbered from `from` on, and returns the bits of
/// its value, the lowest one first.
pub(crate) fn formula(
    alloc: Global,
    program: &Typed,
    e: &TExpr,
    request: u32,
    from: u32,
    vars: &[u32],
    drivers: &mut Vec<Driver>,
) -> Result<Vec<Bit>, AllocError>
    requires vars { vars.now ≡ var_firsts (program_of program.now) }
    requires formed { IsWellFormed (formula_of e.now) }
    requires reads { ReadsFrom program.now.vars (formula_of e.now) }
    requires root { root_request (program_of program.now) < 2 ^ 32 }
    requires room { from + formula_size (formula_of e.now) < 2 ^ 32 }
    ensures made { OnOk result (drivers.new.items ≡ drivers.old.items
        ++ formula_rules (bits_at (program_of program.now)) (formula_of e.now) request from) }
    ensures bits { IfOk result (λ bits. bits.items ≡ formula_result (formula_of e.now) from) }
{
    let mut rails = Vec::new(alloc);
    let bits = expr_drivers(alloc, e, request, vars, from, &mut rails)?;
    add_rails(rails, drivers)?;
    Ok(bits)
}

/// Adds a Q-element, whose nodes are numbered from `from` on: its child's request, its latch and its next request
/// (Martin).
pub(crate) fn element(
    request: u32,
    child_answer: u32,
    from: u32,
    drivers: &mut Vec<Driver>,
) -> Result<(), AllocError>
    requires { from + 1 < 2 ^ 32 }
    ensures { OnOk result (drivers.new.items ≡ drivers.old.items ++ q_rules request child_answer from) }
{
    let latch = from + 1;
    drivers.push(Driver::child(request, latch))?;
    drivers.push(Driver::latch(request, child_answer))?;
    drivers.push(Driver::next(latch, child_answer))?;
    Ok(())
}

/// Adds a Q-element whose child's answer isn't known yet: its latch and its next request aren't driven until it is.
pub fn begin_element(request: u32, latch: u32, drivers: &mut Vec<Driver>) -> Result<(), AllocError>
    ensures { OnOk result (drivers.new.items
        ≡ drivers.old.items ++ q_child request latch ∷ no_rules ∷ no_rules ∷ []) }
{
    drivers.push(Driver::child(request, latch))?;
    drivers.push(Driver::undriven())?;
    drivers.push(Driver::undriven())?;
    Ok(())
}

/// Sets the latch and the next request of such a Q-element, whose drivers begin at `place`.
pub fn close_element(
    place: usize,
    request: u32,
    latch: u32,
    child_answer: u32,
    drivers: &mut Vec<Driver>,
)
    requires { place + 2 < length drivers.old.items }
    ensures { drivers.new.items ≡ slice_set (slice_set drivers.old.items (place + 1) (q_latch request child_answer))
        (place + 2) (q_next latch child_answer) }
{
    drivers[place + 1] = Driver::latch(request, child_answer);
    drivers[place + 2] = Driver::next(latch, child_answer);
}

/// Adds the port of a receive, which takes over the rails of a channel that are numbered from `first` on.
pub(crate) fn port(
    request: u32,
    width: u8,
    first: u32,
    drivers: &mut Vec<Driver>,
) -> Result<(), AllocError>
    requires { first + 2 * width < 2 ^ 32 }
    ensures { OnOk result (drivers.new.items ≡ drivers.old.items ++ port_rules request (pairs_from width first)) }
{
    let mut rail = first;
    for _bit in 0..width {
        drivers.push(Driver::both(request, rail))?;
        drivers.push(Driver::both(request, rail + 1))?;
        rail += 2;
    }
    Ok(())
}
