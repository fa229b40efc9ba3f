//! The gates of operators on two numbers of one width.

ghost use Rattle.std.specs.Prelude.{◌≡◌, ◌+◌, ◌-◌, ◌*◌, ◌<◌, ◌≤◌, ◌^◌, [], ◌∷◌, ◌++◌, length, IfOk, OnOk};
ghost use Rattle.handshake_expand.specs.Layout.{operator_size};
ghost use Rattle.function_blocks.specs.Functions.{truth, carried_on};
ghost use Rattle.function_blocks.specs.Gates.{gate, odd_ones, bitwise, ripple, borrow_gates, equality, operator_rules, operator_result};

use crate::gate::Function;
use crate::node::{Bit, bits_apart};
use crate::rail::RailDriver;
use chp_syntax::Op;
use handshake_expand::operator_nodes;
use std::alloc::{AllocError, Global};

/// Adds the drivers of the rails of a gate of two inputs, or of three where there is a carry from below.
fn gate_over(
    function: Function,
    left: &Bit,
    right: &Bit,
    carried: &Option<Bit>,
    drivers: &mut Vec<RailDriver>,
) -> Result<(), AllocError>
    ensures { OnOk result (drivers.new.items
        ≡ drivers.old.items ++ gate (left.now ∷ right.now ∷ carried_on carried.now) (truth function)) }
{
    drivers.push(RailDriver::gate(function, true, *left, *right, *carried))?;
    drivers.push(RailDriver::gate(function, false, *left, *right, *carried))?;
    Ok(())
}

/// Adds a gate for each bit of the two numbers.
fn bitwise(
    function: Function,
    left: &[Bit],
    right: &[Bit],
    drivers: &mut Vec<RailDriver>,
) -> Result<(), AllocError>
    requires agree { length right.now ≡ length left.now }
    ensures { OnOk result (drivers.new.items ≡ drivers.old.items ++ bitwise (truth function) left.now right.now) }
{
    for place in 0..left.len() {
        gate_over(function, &left[place], &right[place], &None, drivers)?;
    }
    Ok(())
}

/// Adds the gates of a bit's sum or difference, and of its carry.
fn sum_and_carry(
    carry: Function,
    left: &Bit,
    right: &Bit,
    carried: &Option<Bit>,
    drivers: &mut Vec<RailDriver>,
) -> Result<(), AllocError>
    ensures { OnOk result (drivers.new.items ≡ drivers.old.items
        ++ (gate (left.now ∷ right.now ∷ carried_on carried.now) odd_ones
        ++ gate (left.now ∷ right.now ∷ carried_on carried.now) (truth carry))) }
{
    gate_over(Function::Xor, left, right, carried, drivers)?;
    gate_over(carry, left, right, carried, drivers)
}

/// Adds for each bit the gate of the result's bit and, below the top bit, that of its carry. The top bit has no carry:
/// nothing would wait for its rails. The gates' nodes are numbered from `from` on.
fn ripple(
    carry: Function,
    left: &[Bit],
    right: &[Bit],
    from: u32,
    drivers: &mut Vec<RailDriver>,
) -> Result<(), AllocError>
    requires some { 1 ≤ length left.now }
    requires agree { length right.now ≡ length left.now }
    requires room { from + (4 * length left.now - 2) < 2 ^ 32 }
    ensures { OnOk result (drivers.new.items
        ≡ drivers.old.items ++ ripple (truth carry) left.now right.now [] from) }
{
    let top = left.len() - 1;
    let mut carried = None;
    let mut node = from;
    for place in 0..top {
        sum_and_carry(carry, &left[place], &right[place], &carried, drivers)?;
        carried = Some(Bit::at(node + 2));
        node += 4;
    }
    gate_over(Function::Xor, &left[top], &right[top], &carried, drivers)
}

/// Adds the gate of the borrow of each bit, of which the top one tells whether the left number is less.
fn less(
    left: &[Bit],
    right: &[Bit],
    from: u32,
    drivers: &mut Vec<RailDriver>,
) -> Result<(), AllocError>
    requires agree { length right.now ≡ length left.now }
    requires room { from + 2 * length left.now < 2 ^ 32 }
    ensures { OnOk result (drivers.new.items ≡ drivers.old.items ++ borrow_gates left.now right.now [] from) }
{
    let mut borrowed = None;
    let mut node = from;
    for place in 0..left.len() {
        gate_over(
            Function::Borrow,
            &left[place],
            &right[place],
            &borrowed,
            drivers,
        )?;
        borrowed = Some(Bit::at(node));
        node += 2;
    }
    Ok(())
}

/// Adds the gates of each bit's equality, then those of the conjunctions, from the lowest bit on, of which the last one
/// tells whether the numbers are equal.
fn equal(
    left: &[Bit],
    right: &[Bit],
    from: u32,
    drivers: &mut Vec<RailDriver>,
) -> Result<(), AllocError>
    requires some { 1 ≤ length left.now }
    requires most { length left.now ≤ 64 }
    requires agree { length right.now ≡ length left.now }
    requires room { from + (4 * length left.now - 2) < 2 ^ 32 }
    ensures { OnOk result (drivers.new.items ≡ drivers.old.items ++ equality left.now right.now from) }
{
    bitwise(Function::Equal, left, right, drivers)?;
    let bits = left.len() as u32;
    let mut all = Bit::at(from);
    let mut node = from + 2 * bits;
    for place in 1..bits {
        let next = Bit::at(from + 2 * place);
        gate_over(Function::And, &all, &next, &None, drivers)?;
        all = Bit::at(node);
        node += 2;
    }
    Ok(())
}

/// Adds the gates of an operator.
fn gates(
    op: Op,
    left: &[Bit],
    right: &[Bit],
    from: u32,
    drivers: &mut Vec<RailDriver>,
) -> Result<(), AllocError>
    requires some { 1 ≤ length left.now }
    requires most { length left.now ≤ 64 }
    requires agree { length right.now ≡ length left.now }
    requires room { from + operator_size op (length left.now) < 2 ^ 32 }
    ensures { OnOk result (drivers.new.items ≡ drivers.old.items ++ operator_rules op left.now right.now from) }
{
    match op {
        Op::And => bitwise(Function::And, left, right, drivers),
        Op::Or => bitwise(Function::Or, left, right, drivers),
        Op::Xor => bitwise(Function::Xor, left, right, drivers),
        Op::Add => ripple(Function::Carry, left, right, from, drivers),
        Op::Sub => ripple(Function::Borrow, left, right, from, drivers),
        Op::Eq | Op::Ne => equal(left, right, from, drivers),
        Op::Lt | Op::Ge => less(left, right, from, drivers),
        Op::Gt | Op::Le => less(right, left, from, drivers),
    }
}

/// One bit alone.
fn alone(alloc: Global, bit: Bit) -> Result<Vec<Bit>, AllocError>
    ensures { IfOk result (λ bits. bits.items ≡ bit ∷ []) }
{
    let mut bits = Vec::new(alloc);
    bits.push(bit)?;
    Ok(bits)
}

/// The bits of an operator's result on numbers of the width. That of a comparison is told by the operator's last gate.
#[tactic(auto, using(crate::proofs::Emitted::results_apart, crate::proofs::Emitted::ripples_apart))]
fn result_bits(alloc: Global, op: Op, left: &[Bit], from: u32) -> Result<Vec<Bit>, AllocError>
    requires some { 1 ≤ length left.now }
    requires most { length left.now ≤ 64 }
    requires room { from + operator_size op (length left.now) < 2 ^ 32 }
    ensures { IfOk result (λ bits. bits.items ≡ operator_result op left.now from) }
{
    let width = left.len() as u8;
    let last = Bit::at(from + (operator_nodes(op, width) as u32 - 2));
    match op {
        Op::And | Op::Or | Op::Xor => bits_apart(alloc, 2, width, from),
        Op::Add | Op::Sub => bits_apart(alloc, 4, width, from),
        Op::Eq | Op::Lt | Op::Gt => alone(alloc, last),
        Op::Ne | Op::Ge | Op::Le => alone(alloc, last.exchanged()),
    }
}

/// Adds the gates of an operator on two numbers of one width, from 1 to 64 bits, and returns the bits of its result.
/// The gates' nodes are numbered from `from` on.
pub fn operator(
    alloc: Global,
    op: Op,
    left: &[Bit],
    right: &[Bit],
    from: u32,
    drivers: &mut Vec<RailDriver>,
) -> Result<Vec<Bit>, AllocError>
    requires some { 1 ≤ length left.now }
    requires most { length left.now ≤ 64 }
    requires agree { length right.now ≡ length left.now }
    requires room { from + operator_size op (length left.now) < 2 ^ 32 }
    ensures made { OnOk result (drivers.new.items ≡ drivers.old.items ++ operator_rules op left.now right.now from) }
    ensures bits { IfOk result (λ bits. bits.items ≡ operator_result op left.now from) }
{
    gates(op, left, right, from, drivers)?;
    result_bits(alloc, op, left, from)
}
