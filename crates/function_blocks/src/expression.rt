//! The drivers of the nodes of an expression.

ghost use Rattle.std.specs.Prelude.{◌≡◌, ◌+◌, ◌-◌, ◌*◌, ◌<◌, ◌≤◌, ◌^◌, ◌++◌, map, length, IfOk, IsOkAnd, OnOk};
ghost use Rattle.prs_core.specs.Pairs.{exchanged, pairs_from};
ghost use Rattle.width_check.specs.View.{formula_of};
ghost use Rattle.width_check.specs.Values.{IsWellFormed};
ghost use Rattle.handshake_expand.specs.Layout.{formula_size};
ghost use Rattle.function_blocks.specs.Expressions.{OperatorFits, constant_bit, constant_bits, read_bits, bits_between, formula_rules, formula_result};
ghost use Rattle.function_blocks.specs.Gates.{operator_rules, operator_result};
ghost use Rattle.function_blocks.specs.Blocks.{bits_apart, bits_in_blocks, HasBit};
ghost use Rattle.function_blocks.specs.BitsRead.{EachRead};

use crate::node::{Bit, bits_apart};
use crate::operator::operator;
use crate::rail::RailDriver;
use chp_base::Bits;
use chp_syntax::Op;
use std::alloc::{AllocError, Global};
use width_check::TExpr;

/// Adds the drivers of a constant bit: the rail of its value follows the request, and the other one has no rules.
fn constant_bit(one: bool, request: u32, drivers: &mut Vec<RailDriver>) -> Result<(), AllocError>
    ensures { OnOk result (drivers.new.items ≡ drivers.old.items ++ constant_bit request one) }
{
    let high_rail = RailDriver::following(request);
    let low_rail = RailDriver::undriven();
    if one {
        drivers.push(high_rail)?;
        drivers.push(low_rail)?;
    } else {
        drivers.push(low_rail)?;
        drivers.push(high_rail)?;
    }
    Ok(())
}

/// Adds the drivers of a number's bits.
fn constant(bits: &Bits, request: u32, drivers: &mut Vec<RailDriver>) -> Result<(), AllocError>
    ensures { OnOk result (drivers.new.items
        ≡ drivers.old.items ++ constant_bits request bits.now.width bits.now.value) }
{
    let mut value = bits.value();
    for _bit in 0..bits.width() {
        constant_bit(value % 2 == 1, request, drivers)?;
        value /= 2;
    }
    Ok(())
}

/// Adds the drivers of the bits from `low` to `high` that are read of a variable whose block begins at `first`.
pub fn read_drivers(
    first: u32,
    high: u8,
    low: u8,
    request: u32,
    drivers: &mut Vec<RailDriver>,
) -> Result<(), AllocError>
    requires some { low ≤ high }
    requires most { high ≤ 63 }
    requires rails { first + 5 * high + 1 < 2 ^ 32 }
    ensures { OnOk result (drivers.new.items
        ≡ drivers.old.items ++ read_bits request (bits_between high low (bits_apart 5 64 first))) }
{
    for bit in low..high + 1 {
        let rail = first + 5 * u32::from(bit);
        drivers.push(RailDriver::read(request, rail))?;
        drivers.push(RailDriver::read(request, rail + 1))?;
    }
    Ok(())
}

/// Adds the drivers of a number's bits, and returns these bits. The first of all drivers is that of node `from`.
fn number(
    alloc: Global,
    bits: &Bits,
    request: u32,
    from: u32,
    drivers: &mut Vec<RailDriver>,
) -> Result<Vec<Bit>, AllocError>
    requires { from + length drivers.old.items + 2 * bits.now.width < 2 ^ 32 }
    ensures made { OnOk result (drivers.new.items
        ≡ drivers.old.items ++ constant_bits request bits.now.width bits.now.value) }
    ensures bits { IfOk result (λ made. made.items ≡ pairs_from bits.now.width (from + length drivers.old.items)) }
{
    let node = from + drivers.len() as u32;
    constant(bits, request, drivers)?;
    bits_apart(alloc, 2, bits.width(), node)
}

/// Adds the drivers of the bits that are read of a variable whose block begins at `first`, and returns these bits. The
/// first of all drivers is that of node `from`.
fn reading(
    alloc: Global,
    first: u32,
    high: u8,
    low: u8,
    request: u32,
    from: u32,
    drivers: &mut Vec<RailDriver>,
) -> Result<Vec<Bit>, AllocError>
    requires some { low ≤ high }
    requires most { high ≤ 63 }
    requires rails { first + 5 * high + 1 < 2 ^ 32 }
    requires room { from + length drivers.old.items + 2 * (high + 1 - low) < 2 ^ 32 }
    ensures made { OnOk result (drivers.new.items
        ≡ drivers.old.items ++ read_bits request (bits_between high low (bits_apart 5 64 first))) }
    ensures bits { IfOk result (λ made. made.items ≡ pairs_from (high + 1 - low) (from + length drivers.old.items)) }
{
    let node = from + drivers.len() as u32;
    read_drivers(first, high, low, request, drivers)?;
    bits_apart(alloc, 2, high + 1 - low, node)
}

// What follows takes the bits of parts as they were made, so that the function that makes them owns none of them where
// it may be left.

/// The bits of a join's parts so far: those of the next part are lower.
fn joined(lower: Result<Vec<Bit>, AllocError>, higher: Vec<Bit>) -> Result<Vec<Bit>, AllocError>
    ensures { IfOk result (λ all. IsOkAnd lower (λ made. all.items ≡ made.items ++ higher.items)) }
{
    let mut all = lower?;
    all.extend_from_slice(&higher)?;
    Ok(all)
}

/// Negates each bit.
fn exchange(bits: &mut [Bit])
    ensures { bits.new ≡ map exchanged bits.old }
{
    for place in 0..bits.len() {
        bits[place] = bits[place].exchanged();
    }
}

/// The negated bits.
fn exchanged(bits: Result<Vec<Bit>, AllocError>) -> Result<Vec<Bit>, AllocError>
    ensures { IfOk result (λ turned. IsOkAnd bits (λ made. turned.items ≡ map exchanged made.items)) }
{
    let mut bits = bits?;
    exchange(&mut bits);
    Ok(bits)
}

/// Adds the gates of an operator, and returns the bits of its result. The first of all drivers is that of node `from`.
fn applied(
    alloc: Global,
    op: Op,
    left: Vec<Bit>,
    right: Result<Vec<Bit>, AllocError>,
    from: u32,
    drivers: &mut Vec<RailDriver>,
) -> Result<Vec<Bit>, AllocError>
    requires { IfOk right (λ made. OperatorFits from drivers.old.items op left.items made.items) }
    ensures { IfOk result (λ bits. IsOkAnd right (λ made. (drivers.new.items ≡ drivers.old.items
        ++ operator_rules op left.items made.items (from + length drivers.old.items))
        × (bits.items ≡ operator_result op left.items (from + length drivers.old.items)))) }
{
    let right = right?;
    let node = from + drivers.len() as u32;
    operator(alloc, op, &left, &right, node, drivers)
}

/// Adds the drivers of an expression's nodes, and returns the bits of its value. The first of all drivers is that of
/// node `from`.
pub fn expr_drivers(
    alloc: Global,
    e: &TExpr,
    request: u32,
    vars: &[u32],
    from: u32,
    drivers: &mut Vec<RailDriver>,
) -> Result<Vec<Bit>, AllocError>
    requires formed { IsWellFormed (formula_of e.now) }
    requires read { EachRead (HasBit (2 ^ 32) vars.now) (formula_of e.now) }
    requires room { from + length drivers.old.items + formula_size (formula_of e.now) < 2 ^ 32 }
    ensures made { OnOk result (drivers.new.items ≡ drivers.old.items
        ++ formula_rules (bits_in_blocks vars.now) (formula_of e.now) request (from + length drivers.old.items)) }
    ensures bits { IfOk result (λ bits. bits.items
        ≡ formula_result (formula_of e.now) (from + length drivers.old.items)) }
{
    match e {
        TExpr::Number { bits } => number(alloc, bits, request, from, drivers),
        TExpr::Read { var, high, low, .. } => {
            let first = vars[*var as usize];
            reading(alloc, first, *high, *low, request, from, drivers)
        }
        TExpr::Join { parts } => {
            let mut bits = Vec::new(alloc);
            for part in parts {
                let lower = expr_drivers(alloc, part, request, vars, from, drivers);
                bits = joined(lower, bits)?;
            }
            Ok(bits)
        }
        TExpr::Not { inner } => {
            exchanged(expr_drivers(alloc, inner, request, vars, from, drivers))
        }
        TExpr::Chain { first, rest } => {
            let mut bits = expr_drivers(alloc, first, request, vars, from, drivers)?;
            for link in rest {
                let right = expr_drivers(alloc, &link.right, request, vars, from, drivers);
                bits = applied(alloc, link.op, bits, right, from, drivers)?;
            }
            Ok(bits)
        }
        TExpr::Compare { op, left, right } => {
            let left = expr_drivers(alloc, left, request, vars, from, drivers)?;
            let right = expr_drivers(alloc, right, request, vars, from, drivers);
            applied(alloc, *op, left, right, from, drivers)
        }
    }
}
