//! The rules of the circuit of an expression.

ghost use Rattle.std.specs.Prelude.{◌≡◌, ◌≢◌, ℕ, ◌+◌, ◌<◌, ◌≤◌, ◌∷◌, length, All, IfOk, OnOk, OnErr};
ghost use Rattle.prs_core.specs.Nets.{IsAlone};
ghost use Rattle.prs_core.specs.Pairs.{rails_of};
ghost use Rattle.prs_core.specs.Parts.{Owned, Keeps, owned_from, with_owned};
ghost use Rattle.width_check.specs.View.{formula_of};
ghost use Rattle.width_check.specs.Values.{IsWellFormed};
ghost use Rattle.handshake_expand.specs.Layout.{formula_size};
ghost use Rattle.function_blocks.specs.Expressions.{formula_result};
ghost use Rattle.function_blocks.specs.Blocks.{bits_in_blocks, AreBelow, HasBit};
ghost use Rattle.function_blocks.specs.BitsRead.{EachRead, bits_read};
ghost use Rattle.function_blocks.specs.ExpressionParts.{IsOutside, AreDistinct, InItsMoments, IsWhollyNeutral, IsWhollyValid, WaitsAtRest, expression_part, expression_owned, rails_read};

use crate::expression::expr_drivers;
use crate::node::{NodeGuards, rails_of};
use crate::rail::RailDriver;
use prs_core::Rules;
use std::alloc::{AllocError, Global};
use width_check::TExpr;

/// The guards of each driver, in order.
fn guards_of(alloc: Global, drivers: &[RailDriver]) -> Result<Vec<NodeGuards>, AllocError>
    ensures { IfOk result (λ guards. guards.items ≡ drivers.now) }
{
    let mut guards = Vec::with_capacity(alloc, drivers.len())?;
    for driver in drivers {
        guards.push(driver.guards(alloc)?)?;
    }
    Ok(guards)
}

/// Gives the nodes from `from` on these guards.
fn give(guards: Vec<NodeGuards>, from: u32, rules: &mut Rules)
    requires own { from + length guards.items ≤ length rules.old.up }
    requires within { All (AreBelow (length rules.old.up)) guards.items }
    ensures made { rules.new ≡ with_owned (owned_from from guards.items) rules.old }
    ensures nodes { length rules.new.up ≡ length rules.old.up }
{
    // tells the proof that there are fewer than 2^32 nodes, so that the numbers from `from` on fit
    let _count = rules.nodes();
    let mut node = from;
    for each in guards {
        rules.set_up(node, each.up);
        rules.set_down(node, each.down);
        node += 1;
    }
}

/// Writes the guards of the nodes of an expression's circuit (Martin), which are numbered from `from` on, and no
/// others, and returns the rails of its value: rail t and rail f of each bit, the lowest bit first. Under `request` the
/// rails rise to the value, and when it falls they fall. `vars` has for each variable the first node of its block,
/// which begins with five nodes for each bit, the first two of them the bit's rails. The request and the rails that are
/// read are none of the own nodes, and the request is none of the rails. Where memory runs out, nothing is written.
/// Where no two of the bits that are read share a node, the circuit keeps the contract of an expression alone: a rail
/// of the result that rises is that of the value's bit. Once the whole result is valid under the request, so is every
/// gate's, and once it is neutral without the request, so is every gate's; at rest the circuit waits for its request or
/// for a bit that is read.
pub fn emit_expr(
    alloc: Global,
    e: &TExpr,
    request: u32,
    from: u32,
    vars: &[u32],
    rules: &mut Rules,
) -> Result<Vec<u32>, AllocError>
    requires formed { IsWellFormed (formula_of e.now) }
    requires vars { EachRead (HasBit (length rules.old.up) vars.now) (formula_of e.now) }
    requires request { request < length rules.old.up }
    requires own { from + formula_size (formula_of e.now) ≤ length rules.old.up }
    requires apart { All (IsOutside from (formula_size (formula_of e.now)))
        (request ∷ rails_read vars.now (formula_of e.now)) }
    requires unasked { All (λ rail. rail ≢ request) (rails_read vars.now (formula_of e.now)) }
    ensures made { OnOk result (rules.new
        ≡ with_owned (expression_owned vars.now (formula_of e.now) request from) rules.old) }
    ensures rails { IfOk result (λ rails. rails.items ≡ rails_of (formula_result (formula_of e.now) from)) }
    ensures kept { OnErr result (rules.new ≡ rules.old) }
    ensures nodes { length rules.new.up ≡ length rules.old.up }
    ensures others { (node : ℕ)
        → All (λ (o : Owned). o.node ≢ node) (expression_owned vars.now (formula_of e.now) request from)
        → IsAlone rules.old rules.new node }
    ensures keeps { AreDistinct (bits_read (bits_in_blocks vars.now) (formula_of e.now))
        → Keeps (expression_part (bits_in_blocks vars.now) (formula_of e.now) request from) }
    ensures valid { AreDistinct (bits_read (bits_in_blocks vars.now) (formula_of e.now))
        → InItsMoments IsWhollyValid (bits_in_blocks vars.now) (formula_of e.now) request from }
    ensures neutral { AreDistinct (bits_read (bits_in_blocks vars.now) (formula_of e.now))
        → InItsMoments IsWhollyNeutral (bits_in_blocks vars.now) (formula_of e.now) request from }
    ensures waits { AreDistinct (bits_read (bits_in_blocks vars.now) (formula_of e.now))
        → InItsMoments WaitsAtRest (bits_in_blocks vars.now) (formula_of e.now) request from }
{
    // tells the proof that there are fewer than 2^32 nodes, so that the numbers from `from` on fit
    let _count = rules.nodes();
    let mut drivers = Vec::new(alloc);
    let bits = expr_drivers(alloc, e, request, vars, from, &mut drivers)?;
    let rails = rails_of(alloc, &bits)?;
    let guards = guards_of(alloc, &drivers)?;
    give(guards, from, rules);
    Ok(rails)
}
