//! Copies of the parts of a program.

ghost use Rattle.std.specs.Prelude.{◌≡◌, ◌++◌, ◌∷◌, [], map, IfOk, OnOk, IsOk, Ok};
ghost use Rattle.std.specs.declared.alloc.Global.{Global as memory};
ghost use Rattle.std.specs.declared.vec.Vec.{Vec as row};
ghost use Rattle.chp_syntax.specs.declared.tree.Stmt.{Stmt as node, Then, Beside, Select};
ghost use Rattle.chp_syntax.specs.Trees.{skips, assigns, sends, receives, repeats, calls};
ghost use Rattle.chp_syntax.specs.Grammar.{guarded};
ghost use Rattle.chp_syntax.specs.View.{expression_of, statement_of, guarded_of};
ghost use Rattle.slack_buffer.specs.BufferedTrees.{rerouted_name, rerouted_statement};

use chp_base::{Name, Span};
use chp_syntax::{Arm, Decl, Expr, Ident, Link, Stmt};
use std::alloc::{AllocError, Global};

/// A statement that was made, in a box of its own. A statement takes more than a hundred bytes, and what a function
/// that goes through a tree keeps on the stack is there once for each level of the tree. So it returns these, and the
/// functions that make a statement, or add one to others, aren't put into it.
type Made = Result<Box<Stmt>, AllocError>;

/// What was made, in a box of its own.
fn boxed<T: Drop>(alloc: Global, made: Result<T, AllocError>) -> Result<Box<T>, AllocError>
    ensures { IfOk result (λ b. made ≡ Ok b.value) }
{
    Ok(Box::new(alloc, made?)?)
}

fn copied_name(of: &Ident) -> Result<Ident, AllocError>
    ensures { IfOk result (λ made. made ≡ of.now) }
{
    Ok(Ident {
        name: of.name.copy()?,
        at: of.at,
    })
}

/// Copies the declarations.
pub(crate) fn copied_decls(alloc: Global, decls: &[Decl]) -> Result<Vec<Decl>, AllocError>
    ensures { IfOk result (λ made. made.items ≡ decls.now) }
{
    let mut made = Vec::new(alloc);
    for decl in decls {
        made.push(Decl {
            kind: decl.kind,
            name: copied_name(&decl.name)?,
            width: decl.width,
            width_at: decl.width_at,
            first: decl.first,
            first_at: decl.first_at,
        })?;
    }
    Ok(made)
}

fn copied_expression(alloc: Global, e: &Expr) -> Result<Expr, AllocError>
    ensures { IfOk result (λ made. expression_of made ≡ expression_of e.now) }
{
    match e {
        Expr::Number { value, at } => Ok(Expr::Number {
            value: *value,
            at: *at,
        }),
        Expr::Whole { of } => Ok(Expr::Whole {
            of: copied_name(of)?,
        }),
        Expr::Slice { of, high, low, at } => Ok(Expr::Slice {
            of: copied_name(of)?,
            high: *high,
            low: *low,
            at: *at,
        }),
        Expr::Bit { of, place, at } => Ok(Expr::Bit {
            of: copied_name(of)?,
            place: *place,
            at: *at,
        }),
        Expr::Join { parts, at } => {
            let mut made = Vec::with_capacity(alloc, parts.len())?;
            for part in parts {
                made.push(copied_expression(alloc, part)?)?;
            }
            Ok(Expr::Join {
                parts: made,
                at: *at,
            })
        }
        Expr::Not { inner, at } => {
            let made = copied_expression(alloc, inner);
            Ok(Expr::Not {
                inner: boxed(alloc, made)?,
                at: *at,
            })
        }
        Expr::Chain { first, rest, at } => {
            let front = boxed(alloc, copied_expression(alloc, first))?;
            let mut made = Vec::with_capacity(alloc, rest.len())?;
            for link in rest {
                let right = copied_expression(alloc, &link.right)?;
                made.push(Link { op: link.op, right })?;
            }
            Ok(Expr::Chain {
                first: front,
                rest: made,
                at: *at,
            })
        }
    }
}

/// The name, or that of the copy in place of the channel's.
fn rerouted_name(of: &Ident, chan: &Name, copy: &Name) -> Result<Ident, AllocError>
    ensures { IfOk result (λ made. made ≡ rerouted_name chan.now copy.now of.now) }
{
    if of.name == *chan {
        Ok(Ident {
            name: copy.copy()?,
            at: of.at,
        })
    } else {
        copied_name(of)
    }
}

/// `skip`
#[inline(never)]
fn skipped(alloc: Global, at: Span) -> Made
    ensures { IfOk result (λ made. statement_of made.value ≡ skips at) }
{
    Ok(Box::new(alloc, Stmt::Skip { at })?)
}

/// A copy of an assignment.
#[inline(never)]
fn assigned(alloc: Global, target: &Ident, value: &Expr) -> Made
    ensures { IfOk result (λ made. statement_of made.value ≡ assigns target.now (expression_of value.now)) }
{
    let target = copied_name(target)?;
    let value = copied_expression(alloc, value)?;
    Ok(Box::new(alloc, Stmt::Assign { target, value })?)
}

/// A copy of a send.
#[inline(never)]
fn sent(alloc: Global, on: &Ident, value: &Expr) -> Made
    ensures { IfOk result (λ made. statement_of made.value ≡ sends on.now (expression_of value.now)) }
{
    let chan = copied_name(on)?;
    let value = copied_expression(alloc, value)?;
    Ok(Box::new(alloc, Stmt::Send { chan, value })?)
}

/// A receive, on the copy in place of the channel.
#[inline(never)]
fn received(alloc: Global, on: &Ident, target: &Ident, chan: &Name, copy: &Name) -> Made
    ensures { IfOk result (λ made. statement_of made.value
        ≡ receives (rerouted_name chan.now copy.now on.now) target.now) }
{
    let chan = rerouted_name(on, chan, copy)?;
    let target = copied_name(target)?;
    Ok(Box::new(alloc, Stmt::Receive { chan, target })?)
}

/// A copy of a call.
#[inline(never)]
fn called(alloc: Global, of: &Ident) -> Made
    ensures { IfOk result (λ made. statement_of made.value ≡ calls of.now) }
{
    let of = copied_name(of)?;
    Ok(Box::new(alloc, Stmt::Call { of })?)
}

/// Adds what was made to the members.
#[inline(never)]
fn add(members: &mut Vec<Stmt>, made: Made) -> Result<(), AllocError>
    ensures made { OnOk result (IsOk made) }
    ensures added { OnOk result (IfOk made (λ b. members.new.items ≡ members.old.items ++ b.value ∷ [])) }
{
    members.push(Box::into_inner(made?))?;
    Ok(())
}

/// A group of these members, of the kind of the group `s`: one after the other, or beside each other.
#[inline(never)]
fn grouped(alloc: Global, s: &Stmt, members: Vec<Stmt>) -> Made
    ensures turns { (parts : row node memory) → s.now ≡ Then parts →
        IfOk result (λ made. made.value ≡ Then members) }
    ensures sides { (parts : row node memory) → s.now ≡ Beside parts →
        IfOk result (λ made. made.value ≡ Beside members) }
{
    let made = match s {
        Stmt::Then { .. } => Stmt::Then { parts: members },
        _ => Stmt::Beside { parts: members },
    };
    Ok(Box::new(alloc, made)?)
}

/// Adds an arm with a copy of the guard, and the body that was made.
#[inline(never)]
fn add_arm(alloc: Global, arms: &mut Vec<Arm>, guard: &Expr, body: Made) -> Result<(), AllocError>
    ensures made { OnOk result (IsOk body) }
    ensures added { OnOk result (IfOk body (λ b. map guarded_of arms.new.items ≡
        map guarded_of arms.old.items ++ guarded (expression_of guard.now) (statement_of b.value) ∷ [])) }
{
    let body = Box::into_inner(body?);
    let guard = copied_expression(alloc, guard)?;
    arms.push(Arm { guard, body })?;
    Ok(())
}

/// A selection with these arms.
#[inline(never)]
fn selected(alloc: Global, again: bool, arms: Vec<Arm>) -> Made
    ensures { IfOk result (λ made. made.value ≡ Select again arms) }
{
    Ok(Box::new(alloc, Stmt::Select { again, arms })?)
}

/// The repetition of what was made.
#[inline(never)]
fn repeated(alloc: Global, body: Made) -> Made
    ensures made { OnOk result (IsOk body) }
    ensures repeats { IfOk result (λ made. IfOk body (λ b. statement_of made.value ≡ repeats (statement_of b.value))) }
{
    Ok(Box::new(alloc, Stmt::Repeat { body: body? })?)
}

/// The statement with each receive on the channel put on the copy, in a box of its own.
fn rerouted_box(alloc: Global, s: &Stmt, chan: &Name, copy: &Name) -> Made
    ensures { IfOk result (λ made. statement_of made.value
        ≡ rerouted_statement chan.now copy.now (statement_of s.now)) }
{
    match s {
        Stmt::Skip { at } => skipped(alloc, *at),
        Stmt::Assign { target, value } => assigned(alloc, target, value),
        Stmt::Send { chan: on, value } => sent(alloc, on, value),
        Stmt::Receive { chan: on, target } => received(alloc, on, target, chan, copy),
        Stmt::Then { parts } | Stmt::Beside { parts } => {
            let mut made = Vec::with_capacity(alloc, parts.len())?;
            for part in parts {
                add(&mut made, rerouted_box(alloc, part, chan, copy))?;
            }
            grouped(alloc, s, made)
        }
        Stmt::Select { again, arms } => {
            let mut made = Vec::with_capacity(alloc, arms.len())?;
            for arm in arms {
                let body = rerouted_box(alloc, &arm.body, chan, copy);
                add_arm(alloc, &mut made, &arm.guard, body)?;
            }
            selected(alloc, *again, made)
        }
        Stmt::Repeat { body } => repeated(alloc, rerouted_box(alloc, body, chan, copy)),
        Stmt::Call { of } => called(alloc, of),
    }
}

/// The statement with each receive on the channel put on the copy.
pub(crate) fn rerouted(
    alloc: Global,
    s: &Stmt,
    chan: &Name,
    copy: &Name,
) -> Result<Stmt, AllocError>
    ensures { IfOk result (λ made. statement_of made ≡ rerouted_statement chan.now copy.now (statement_of s.now)) }
{
    Ok(Box::into_inner(rerouted_box(alloc, s, chan, copy)?))
}
