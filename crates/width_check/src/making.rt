//! The typed form of a program in which nothing is wrong.

ghost use Rattle.std.specs.Prelude.{◌≡◌, ◌≤◌, ◌<◌, ◌-◌, ◌^◌, ◌++◌, ◌∷◌, [], true, false, Some, Ok, IfOk, IsOkAnd};
ghost use Rattle.std.specs.declared.alloc.Global.{Global as memory};
ghost use Rattle.std.specs.declared.vec.Vec.{Vec as row};
ghost use Rattle.chp_syntax.specs.declared.tree.Stmt as plain;
ghost use Rattle.chp_syntax.specs.declared.tree.Stmt.{Stmt as node};
ghost use Rattle.chp_syntax.specs.Shape.{IsShapedExpression, IsShapedStatement};
ghost use Rattle.chp_syntax.specs.Trees.{assigns, sends, receives};
ghost use Rattle.chp_syntax.specs.View.{expression_of, statement_of};
ghost use Rattle.width_check.specs.declared.typed.TExpr.{Join, Chain};
ghost use Rattle.width_check.specs.declared.typed.TStmt.{Then, Beside, Select};
ghost use Rattle.width_check.specs.Calls.{has_call};
ghost use Rattle.width_check.specs.Form.{formula_form, process_form, var_number};
ghost use Rattle.width_check.specs.Places.{declared_width};
ghost use Rattle.width_check.specs.Processes.{compared, inverted, reading, repeating};
ghost use Rattle.width_check.specs.Sound.{AreRanged, IsSound, is_var_in};
ghost use Rattle.width_check.specs.View.{formula_of, process_of};
ghost use Rattle.width_check.specs.Walk.{met_in, met_of};

use crate::scope::{Scope, compares};
use crate::typed::{TArm, TExpr, TLink, TStmt};
use chp_base::Bits;
use chp_syntax::{Expr, Ident, Op, Stmt};
use std::alloc::{AllocError, Global};

/// A number with its width.
fn constant(width: u8, value: u64) -> Bits
    requires some { 1 ≤ width }
    requires most { width ≤ 64 }
    requires fits { value < 2 ^ width }
    ensures width { result.width ≡ width }
    ensures value { result.value ≡ value }
{
    Bits::new(width, value).unwrap()
}

/// The bits from `low` to `high` of a variable.
fn read(scope: &Scope, of: &Ident, high: u8, low: u8) -> TExpr
    requires { is_var_in scope.now.decls.now of.now.name ≡ Some true }
    ensures { formula_of result ≡ reading (var_number scope.now.decls.now of.now.name) high low of.now.at }
{
    TExpr::Read {
        var: scope.number(&of.name),
        high,
        low,
        at: of.at,
    }
}

/// All bits of a variable.
fn read_whole(scope: &Scope, of: &Ident) -> TExpr
    requires ranged { AreRanged scope.now.decls.now }
    requires var { is_var_in scope.now.decls.now of.now.name ≡ Some true }
    ensures { formula_of result ≡ reading (var_number scope.now.decls.now of.now.name)
        (declared_width scope.now.decls.now of.now.name - 1) 0 of.now.at }
{
    read(scope, of, scope.bits(&of.name) - 1, 0)
}

/// What was made, in a box of its own.
#[inline(never)]
fn boxed<T: Drop>(alloc: Global, made: Result<T, AllocError>) -> Result<Box<T>, AllocError>
    ensures { IfOk result (λ b. made ≡ Ok b.value) }
{
    Ok(Box::new(alloc, made?)?)
}

/// Two things that were made. The functions that go down a tree own nothing where they may be left: they hand on what
/// was made as a result, and functions that aren't put into them, so that their frames stay small, look at it.
#[inline(never)]
fn both<A: Drop, B: Drop>(
    one: Result<A, AllocError>,
    other: Result<B, AllocError>,
) -> Result<(A, B), AllocError>
    ensures { IfOk result (λ pair. (one ≡ Ok pair.0) × (other ≡ Ok pair.1)) }
{
    let one = one?;
    Ok((one, other?))
}

/// The list that was made, with one more member that was made.
#[inline(never)]
fn extended<T: Drop>(
    list: Result<Vec<T>, AllocError>,
    member: Result<T, AllocError>,
) -> Result<Vec<T>, AllocError>
    ensures { IfOk result (λ new. IsOkAnd list (λ old. IsOkAnd member (λ x. new.items ≡ old.items ++ x ∷ []))) }
{
    let (mut list, member) = both(list, member)?;
    list.push(member)?;
    Ok(list)
}

/// The join of what was made of its parts.
#[inline(never)]
fn joined(parts: Result<Vec<TExpr>, AllocError>) -> Result<TExpr, AllocError>
    ensures { IfOk result (λ made. IsOkAnd parts (λ p. made ≡ Join p)) }
{
    Ok(TExpr::Join { parts: parts? })
}

/// The negation of what was made.
#[inline(never)]
fn inverted(alloc: Global, inner: Result<TExpr, AllocError>) -> Result<TExpr, AllocError>
    ensures { IfOk result (λ made. IsOkAnd inner (λ e. formula_of made ≡ inverted (formula_of e))) }
{
    Ok(TExpr::Not {
        inner: boxed(alloc, inner)?,
    })
}

/// An operator and what was made of its right side.
#[inline(never)]
fn linked(op: Op, right: Result<TExpr, AllocError>) -> Result<TLink, AllocError>
    ensures { IfOk result (λ link. IsOkAnd right (λ e. link ≡ record { op = op; right = e })) }
{
    Ok(TLink { op, right: right? })
}

/// The chain of what was made of its first member and of the others.
#[inline(never)]
fn chained(
    first: Result<Box<TExpr>, AllocError>,
    rest: Result<Vec<TLink>, AllocError>,
) -> Result<TExpr, AllocError>
    ensures { IfOk result (λ made. IsOkAnd first (λ f. IsOkAnd rest (λ r. made ≡ Chain f r))) }
{
    let (first, rest) = both(first, rest)?;
    Ok(TExpr::Chain { first, rest })
}

/// The comparison of what was made of its two sides.
#[inline(never)]
fn comparison(
    alloc: Global,
    op: Op,
    left: Result<TExpr, AllocError>,
    right: Result<TExpr, AllocError>,
) -> Result<TExpr, AllocError>
    ensures { IfOk result (λ made. IsOkAnd left (λ l. IsOkAnd right (λ r.
        formula_of made ≡ compared op (formula_of l) (formula_of r)))) }
{
    let (left, right) = both(boxed(alloc, left), boxed(alloc, right))?;
    Ok(TExpr::Compare { op, left, right })
}

/// The typed form of an expression with this expected width.
fn make_expression(alloc: Global, scope: &Scope, e: &Expr, width: u8) -> Result<TExpr, AllocError>
    requires some { 1 ≤ width }
    requires most { width ≤ 64 }
    requires ranged { AreRanged scope.now.decls.now }
    requires shaped { IsShapedExpression (expression_of e.now) }
    requires sound { IsSound scope.now.decls.now (met_in scope.now.decls.now width (expression_of e.now)) }
    ensures { IfOk result (λ made. formula_of made ≡ formula_form scope.now.decls.now width (expression_of e.now)) }
{
    match e {
        Expr::Number { value, .. } => Ok(TExpr::Number {
            bits: constant(width, *value),
        }),
        Expr::Whole { of } => Ok(read_whole(scope, of)),
        Expr::Slice { of, high, low, .. } => Ok(read(scope, of, *high as u8, *low as u8)),
        Expr::Bit { of, place, .. } => {
            let place = *place as u8;
            Ok(read(scope, of, place, place))
        }
        Expr::Join { parts, .. } => {
            let mut made = Vec::with_capacity(alloc, parts.len());
            for part in parts {
                let own = scope.own_width(part).unwrap_or(0);
                made = extended(made, make_expression(alloc, scope, part, own));
            }
            joined(made)
        }
        Expr::Not { inner, .. } => inverted(alloc, make_expression(alloc, scope, inner, width)),
        Expr::Chain { first, rest, .. } => {
            if compares(rest) {
                let side = scope.side_width(first, rest).unwrap_or(0);
                let link = &rest[0];
                let left = make_expression(alloc, scope, first, side);
                let right = make_expression(alloc, scope, &link.right, side);
                return comparison(alloc, link.op, left, right);
            }
            let mut made = Vec::with_capacity(alloc, rest.len());
            for link in rest {
                let right = make_expression(alloc, scope, &link.right, width);
                made = extended(made, linked(link.op, right));
            }
            let front = make_expression(alloc, scope, first, width);
            chained(boxed(alloc, front), made)
        }
    }
}

/// A guard and the statement behind it, as they were made.
#[inline(never)]
fn guarded(
    guard: Result<TExpr, AllocError>,
    body: Result<TStmt, AllocError>,
) -> Result<TArm, AllocError>
    ensures { IfOk result (λ arm. IsOkAnd guard (λ g. IsOkAnd body (λ s. arm ≡ record { guard = g; body = s }))) }
{
    let (guard, body) = both(guard, body)?;
    Ok(TArm { guard, body })
}

/// A group of what was made of the members, of the kind of the group `s`: one after the other, or beside each other.
#[inline(never)]
fn grouped(s: &Stmt, parts: Result<Vec<TStmt>, AllocError>) -> Result<TStmt, AllocError>
    ensures turns { (members : row node memory) → s.now ≡ plain.Then members →
        IfOk result (λ made. IsOkAnd parts (λ p. made ≡ Then p)) }
    ensures sides { ((members : row node memory) → ¬ (s.now ≡ plain.Then members)) →
        IfOk result (λ made. IsOkAnd parts (λ p. made ≡ Beside p)) }
{
    let parts = parts?;
    match s {
        Stmt::Then { .. } => Ok(TStmt::Then { parts }),
        _ => Ok(TStmt::Beside { parts }),
    }
}

/// The selection of what was made of its arms.
#[inline(never)]
fn selected(again: bool, arms: Result<Vec<TArm>, AllocError>) -> Result<TStmt, AllocError>
    ensures { IfOk result (λ made. IsOkAnd arms (λ a. made ≡ Select again a)) }
{
    Ok(TStmt::Select { again, arms: arms? })
}

/// The repetition of what was made.
#[inline(never)]
fn repeated(alloc: Global, body: Result<TStmt, AllocError>) -> Result<TStmt, AllocError>
    ensures { IfOk result (λ made. IsOkAnd body (λ s. process_of made ≡ repeating (process_of s))) }
{
    Ok(TStmt::Repeat {
        body: boxed(alloc, body)?,
    })
}

/// `x := e`
#[inline(never)]
fn make_assign(
    alloc: Global,
    scope: &Scope,
    target: &Ident,
    value: &Expr,
) -> Result<TStmt, AllocError>
    requires ranged { AreRanged scope.now.decls.now }
    requires shaped { IsShapedExpression (expression_of value.now) }
    requires sound { IsSound scope.now.decls.now
        (met_of scope.now.decls.now (assigns target.now (expression_of value.now))) }
    ensures { IfOk result (λ made. process_of made ≡
        process_form scope.now.decls.now (assigns target.now (expression_of value.now))) }
{
    let value = make_expression(alloc, scope, value, scope.bits(&target.name))?;
    Ok(TStmt::Assign {
        var: scope.number(&target.name),
        at: target.at,
        value,
    })
}

/// `X!e`
#[inline(never)]
fn make_send(alloc: Global, scope: &Scope, chan: &Ident, value: &Expr) -> Result<TStmt, AllocError>
    requires ranged { AreRanged scope.now.decls.now }
    requires shaped { IsShapedExpression (expression_of value.now) }
    requires sound { IsSound scope.now.decls.now
        (met_of scope.now.decls.now (sends chan.now (expression_of value.now))) }
    ensures { IfOk result (λ made. process_of made ≡
        process_form scope.now.decls.now (sends chan.now (expression_of value.now))) }
{
    let value = make_expression(alloc, scope, value, scope.bits(&chan.name))?;
    Ok(TStmt::Send {
        chan: scope.number(&chan.name),
        at: chan.at,
        value,
    })
}

/// `X?v`
fn make_receive(scope: &Scope, chan: &Ident, target: &Ident) -> TStmt
    requires { IsSound scope.now.decls.now (met_of scope.now.decls.now (receives chan.now target.now)) }
    ensures { process_of result ≡ process_form scope.now.decls.now (receives chan.now target.now) }
{
    TStmt::Receive {
        chan: scope.number(&chan.name),
        chan_at: chan.at,
        var: scope.number(&target.name),
        var_at: target.at,
    }
}

/// The typed form of a statement.
pub fn make_statement(alloc: Global, scope: &Scope, s: &Stmt) -> Result<TStmt, AllocError>
    requires ranged { AreRanged scope.now.decls.now }
    requires shaped { IsShapedStatement (statement_of s.now) }
    requires call_free { has_call (statement_of s.now) ≡ false }
    requires sound { IsSound scope.now.decls.now (met_of scope.now.decls.now (statement_of s.now)) }
    ensures { IfOk result (λ made. process_of made ≡ process_form scope.now.decls.now (statement_of s.now)) }
{
    match s {
        Stmt::Skip { .. } => Ok(TStmt::Skip),
        Stmt::Assign { target, value } => make_assign(alloc, scope, target, value),
        Stmt::Send { chan, value } => make_send(alloc, scope, chan, value),
        Stmt::Receive { chan, target } => Ok(make_receive(scope, chan, target)),
        Stmt::Then { parts } | Stmt::Beside { parts } => {
            let mut made = Vec::with_capacity(alloc, parts.len());
            for part in parts {
                made = extended(made, make_statement(alloc, scope, part));
            }
            grouped(s, made)
        }
        Stmt::Select { again, arms } => {
            let mut made = Vec::with_capacity(alloc, arms.len());
            for arm in arms {
                let guard = make_expression(alloc, scope, &arm.guard, 1);
                let body = make_statement(alloc, scope, &arm.body);
                made = extended(made, guarded(guard, body));
            }
            selected(*again, made)
        }
        Stmt::Repeat { body } => repeated(alloc, make_statement(alloc, scope, body)),
        Stmt::Call { .. } => unreachable!(),
    }
}
