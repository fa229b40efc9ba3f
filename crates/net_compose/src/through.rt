//! The drivers of an assignment to a variable that its own expression reads.

ghost use Rattle.std.specs.Prelude.{◌≡◌, ◌+◌, ◌^◌, ◌<◌, ◌≤◌, ◌++◌, ◌∷◌, [], length, IfOk, OnOk};
ghost use Rattle.width_check.specs.Typed.{program_of};
ghost use Rattle.width_check.specs.Typing.{var_width, IsOfWidth};
ghost use Rattle.width_check.specs.View.{formula_of};
ghost use Rattle.handshake_expand.specs.Answers.{second_answer};
ghost use Rattle.handshake_expand.specs.Layout.{block_size, formula_size, through_size, root_request};
ghost use Rattle.cell_variable.specs.Variables.{variable_rules};
ghost use Rattle.function_blocks.specs.Expressions.{read_bits};
ghost use Rattle.net_compose.specs.Begins.{var_firsts};
ghost use Rattle.net_compose.specs.Translation.{block_bits, read_back, through_at, through_rules};

use crate::block::block;
use crate::contact::Site;
use crate::driver::Driver;
use crate::ends::{var_bits, written_node};
use crate::firsts::block_nodes;
use crate::formula::{add_rails, element, formula};
use function_blocks::{Bit, bits_apart, expr_nodes, read_drivers};
use std::alloc::{AllocError, Global};
use width_check::{TExpr, Typed};

/// Adds the block of a hidden variable, which is written at one site alone.
fn hidden(
    alloc: Global,
    bits: Vec<Bit>,
    width: u8,
    from: u32,
    drivers: &mut Vec<Driver>,
) -> Result<(), AllocError>
    requires { from + block_size width + 1 < 2 ^ 32 }
    ensures { OnOk result (drivers.new.items ≡ drivers.old.items ++ variable_rules width from (bits.items ∷ [])) }
{
    let mut sites = Vec::new(alloc);
    sites.push(Site::new(bits))?;
    block(alloc, &sites, width, from, drivers)?;
    Ok(())
}

/// Adds what is read of all bits of a variable whose block begins at `first`.
fn read_all(
    alloc: Global,
    first: u32,
    width: u8,
    request: u32,
    drivers: &mut Vec<Driver>,
) -> Result<(), AllocError>
    requires some { 1 ≤ width }
    requires most { width ≤ 64 }
    requires room { first + block_size width < 2 ^ 32 }
    ensures { OnOk result (drivers.new.items ≡ drivers.old.items ++ read_bits request (block_bits width first)) }
{
    let mut rails = Vec::new(alloc);
    read_drivers(first, width - 1, 0, request, &mut rails)?;
    add_rails(rails, drivers)?;
    Ok(())
}

/// Adds the drivers of an assignment to a variable that its own expression reads, and returns the node that answers its
/// request and the bits by which the variable is written. The value goes through a hidden variable of the assignment's
/// own: it is stored there first, and then read back.
pub(crate) fn through(
    alloc: Global,
    program: &Typed,
    var: u32,
    value: &TExpr,
    request: u32,
    from: u32,
    vars: &[u32],
    drivers: &mut Vec<Driver>,
) -> Result<(u32, Vec<Bit>), AllocError>
    requires vars { vars.now ≡ var_firsts (program_of program.now) }
    requires within { var < length program.now.vars }
    requires width { IsOfWidth program.now.vars (var_width program.now.vars var) (formula_of value.now) }
    requires root { root_request (program_of program.now) ≤ from }
    requires room { from + through_size (var_width program.now.vars var) (formula_of value.now) < 2 ^ 32 }
    ensures made { OnOk result (drivers.new.items ≡ drivers.old.items
        ++ through_rules (program_of program.now) var (formula_of value.now) request from) }
    ensures answer { IfOk result (λ written. written.0
        ≡ second_answer (program_of program.now) var from (formula_size (formula_of value.now))) }
    ensures bits { IfOk result (λ written. written.1.items
        ≡ read_back (through_at (var_width program.now.vars var) (formula_size (formula_of value.now)) from)) }
{
    // the contract of `body` says what holds of a checked program
    let _kept = program.body();
    let width = var_bits(program, var);
    let size = expr_nodes(value) as u32;
    let own = from + block_nodes(width);
    let first = own + 3;
    let second = first + 1 + size;
    let written = written_node(program, var, vars);
    let mut inner = Vec::new(alloc);
    let bits = formula(alloc, program, value, own, first + 1, vars, &mut inner)?;
    hidden(alloc, bits, width, from, drivers)?;
    element(request, first, own, drivers)?;
    drivers.push(Driver::site(own, own - 1))?;
    drivers.append(&mut inner)?;
    drivers.push(Driver::site(own + 2, written))?;
    read_all(alloc, from, width, own + 2, drivers)?;
    let read = bits_apart(alloc, 2, width, second + 1)?;
    Ok((second, read))
}
