//! Gates on dual-rail bits.

ghost use Rattle.std.specs.Prelude.{◌≡◌, ◌+◌, ◌<◌, ◌≤◌, [], ◌∷◌, ◌++◌, map, filter, length, true, false, IfOk, OnOk};
ghost use Rattle.prs_core.specs.Nets.{one_term};
ghost use Rattle.prs_core.specs.Pairs.{lows, rails_of};
ghost use Rattle.function_blocks.specs.Gates.{all_one, some_one, odd_ones, carries, borrows, table, minterm, gate_rail};
ghost use Rattle.function_blocks.specs.Waves.{rows_of};
ghost use Rattle.function_blocks.specs.Functions.{truth, carried_on};

use crate::node::Bit;
use prs_core::{Guard, Term, all_of, high, low};
use std::alloc::{AllocError, Global};

/// The truth function of a gate. Each row of the truth table has an input's value at the input's index.
#[derive(Clone, Copy)]
pub enum Function {
    And,
    Or,
    Xor,
    /// The negated exclusive or: of two inputs, whether they are equal.
    Equal,
    /// Whether at least two of three inputs are 1, or both of two.
    Carry,
    /// Whether the first input, less the second one and less the third one if there is one, is below zero.
    Borrow,
}

fn all_one(row: &[bool]) -> bool
    ensures { result ≡ all_one row.now }
{
    for one in row {
        if !*one {
            return false;
        }
    }
    true
}

fn some_one(row: &[bool]) -> bool
    ensures { result ≡ some_one row.now }
{
    for one in row {
        if *one {
            return true;
        }
    }
    false
}

#[tactic(auto, using(crate::proofs::Emitted::odd_more))]
fn odd_ones(row: &[bool]) -> bool
    ensures { result ≡ odd_ones row.now }
{
    let mut odd = false;
    for one in row {
        odd = odd != *one;
    }
    odd
}

fn carries(row: &[bool]) -> bool
    requires some { 2 ≤ length row.now }
    requires most { length row.now ≤ 3 }
    ensures { result ≡ carries row.now }
{
    match row {
        [a, b, c] => (*a && *b) || (*a && *c) || (*b && *c),
        _ => all_one(row),
    }
}

fn borrows(row: &[bool]) -> bool
    requires some { 2 ≤ length row.now }
    requires most { length row.now ≤ 3 }
    ensures { result ≡ borrows row.now }
{
    match row {
        [a, b, c] => (!*a && *b) || (!*a && *c) || (*b && *c),
        _ => !row[0] && row[1],
    }
}

impl Function {
    /// The function's value on a row of the truth table of two or three inputs.
    pub fn value(self, row: &[bool]) -> bool
        requires some { 2 ≤ length row.now }
        requires most { length row.now ≤ 3 }
        ensures { result ≡ truth self row.now }
    {
        match self {
            Function::And => all_one(row),
            Function::Or => some_one(row),
            Function::Xor => odd_ones(row),
            Function::Equal => !odd_ones(row),
            Function::Carry => carries(row),
            Function::Borrow => borrows(row),
        }
    }
}

/// The term of a row: for each input the rail that is high in it.
fn minterm(alloc: Global, inputs: &[Bit], row: &[bool]) -> Result<Term, AllocError>
    requires some { 0 < length inputs.now }
    requires agree { length row.now ≡ length inputs.now }
    ensures { IfOk result (λ term. term ≡ minterm inputs.now row.now) }
{
    let mut literals = Vec::new(alloc);
    for place in 0..inputs.len() {
        literals.push(high(inputs[place].rail(row[place])))?;
    }
    Ok(Term::new(literals).unwrap())
}

/// How many rows the truth table of two or three inputs has.
fn row_count(inputs: usize) -> u8
    requires some { 2 ≤ inputs }
    requires most { inputs ≤ 3 }
    ensures { result ≡ length (table inputs) }
{
    if inputs == 2 { 4 } else { 8 }
}

/// Adds the row's term where the function has this value on the row.
fn add_row(
    alloc: Global,
    function: Function,
    value: bool,
    inputs: &[Bit],
    row: &[bool],
    terms: &mut Vec<Term>,
) -> Result<(), AllocError>
    requires some { 2 ≤ length inputs.now }
    requires most { length inputs.now ≤ 3 }
    requires agree { length row.now ≡ length inputs.now }
    ensures { OnOk result (terms.new.items
        ≡ terms.old.items ++ map (minterm inputs.now) (filter (rows_of value (truth function)) (row.now ∷ []))) }
{
    if function.value(row) == value {
        terms.push(minterm(alloc, inputs, row)?)?;
    }
    Ok(())
}

/// The guard that holds on the rows on which the function has this value. Rows ascend, the first input lowest.
fn rows_with(
    alloc: Global,
    function: Function,
    value: bool,
    inputs: &[Bit],
) -> Result<Guard, AllocError>
    requires some { 2 ≤ length inputs.now }
    requires most { length inputs.now ≤ 3 }
    ensures { IfOk result (λ guard. guard
        ≡ map (minterm inputs.now) (filter (rows_of value (truth function)) (table (length inputs.now)))) }
{
    let mut terms = Vec::new(alloc);
    for number in 0..row_count(inputs.len()) {
        let row = [number % 2 == 1, number / 2 % 2 == 1, number / 4 % 2 == 1];
        add_row(
            alloc,
            function,
            value,
            inputs,
            &row[..inputs.len()],
            &mut terms,
        )?;
    }
    Ok(Guard::new(terms))
}

/// The guard that holds where all rails of the inputs are low.
fn all_neutral(alloc: Global, inputs: &[Bit]) -> Result<Guard, AllocError>
    requires { 0 < length inputs.now }
    ensures { IfOk result (λ guard. guard ≡ one_term (lows (rails_of inputs.now))) }
{
    let mut literals = Vec::new(alloc);
    for input in inputs {
        literals.push(low(input.rail(true)))?;
        literals.push(low(input.rail(false)))?;
    }
    all_of(alloc, &literals)
}

/// The guard by which a rail of a gate rises: it holds on the rows on which the function has this value. The gate has
/// two inputs, or three where there is a carry from below.
pub fn gate_rows(
    alloc: Global,
    function: Function,
    one: bool,
    left: Bit,
    right: Bit,
    below: Option<Bit>,
) -> Result<Guard, AllocError>
    ensures { IfOk result (λ guard. guard
        ≡ (gate_rail (left ∷ right ∷ carried_on below) (rows_of one (truth function))).up) }
{
    match below {
        None => rows_with(alloc, function, one, &[left, right]),
        Some(carried) => rows_with(alloc, function, one, &[left, right, carried]),
    }
}

/// The guard by which the rails of a gate fall: all rails of its inputs are low.
pub fn gate_neutral(
    alloc: Global,
    left: Bit,
    right: Bit,
    below: Option<Bit>,
) -> Result<Guard, AllocError>
    ensures { IfOk result (λ guard. guard ≡ lows (rails_of (left ∷ right ∷ carried_on below)) ∷ []) }
{
    match below {
        None => all_neutral(alloc, &[left, right]),
        Some(carried) => all_neutral(alloc, &[left, right, carried]),
    }
}
