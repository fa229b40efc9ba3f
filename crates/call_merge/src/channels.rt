//! The program of a program's calls alone: its procedures are channels, and its calls are sends.

ghost use Rattle.std.specs.Prelude.{◌≡◌, ◌++◌, ◌∷◌, [], map, Ok, IfOk, OnOk, IsOk};
ghost use Rattle.chp_syntax.specs.Trees.{Procedure, sends};
ghost use Rattle.chp_syntax.specs.Grammar.{guarded};
ghost use Rattle.chp_syntax.specs.View.{program_tree as tree_of, procedure_of, statement_of, guarded_of};
ghost use Rattle.call_merge.specs.CallSites.{no_place, zero_expression, call_channel, call_sends, calls_program};

use crate::copies::{Made, add, add_arm, copied_name, grouped, repeated, selected, sent, skipped};
use chp_base::Span;
use chp_syntax::{Arm, Decl, DeclKind, Expr, Ident, Proc, Program, Stmt};
use std::alloc::{AllocError, Global};

/// What is made stands in no text.
const NOWHERE: Span = Span { from: 0, to: 0 };

const ZERO_WIDTH: u64 = 1;

/// A channel of one bit with this name.
fn call_channel(name: Ident) -> Decl
    ensures { (q : Procedure) → q.name ≡ name → result ≡ call_channel q }
{
    Decl {
        kind: DeclKind::Chan,
        name,
        width: ZERO_WIDTH,
        width_at: NOWHERE,
        first: 0,
        first_at: NOWHERE,
    }
}

/// For each procedure a channel of one bit with its name.
fn call_channels(alloc: Global, procs: &[Proc]) -> Result<Vec<Decl>, AllocError>
    ensures { IfOk result (λ made. made.items ≡ map call_channel (map procedure_of procs.now)) }
{
    let mut made = Vec::new(alloc);
    for procedure in procs {
        let name = copied_name(&procedure.name)?;
        made.push(call_channel(name))?;
    }
    Ok(made)
}

/// Adds an arm whose guard is 0.
#[inline(never)]
fn add_zero_arm(alloc: Global, arms: &mut Vec<Arm>, body: Made) -> Result<(), AllocError>
    ensures made { OnOk result (IsOk body) }
    ensures added { OnOk result (IfOk body (λ b. map guarded_of arms.new.items ≡
        map guarded_of arms.old.items ++ guarded zero_expression (statement_of b.value) ∷ [])) }
{
    let zero = Expr::Number {
        value: 0,
        at: NOWHERE,
    };
    add_arm(alloc, arms, &zero, body)
}

/// A send of 0 on the channel of this name.
#[inline(never)]
fn zero_sent(alloc: Global, chan: &Ident) -> Made
    ensures { IfOk result (λ made. statement_of made.value ≡ sends chan.now zero_expression) }
{
    let zero = Expr::Number {
        value: 0,
        at: NOWHERE,
    };
    sent(alloc, chan, &zero)
}

/// The statement with each call a send of 0, each guard 0, and all else skipped.
fn call_sends(alloc: Global, s: &Stmt) -> Made
    ensures { IfOk result (λ made. statement_of made.value ≡ call_sends (statement_of s.now)) }
{
    match s {
        Stmt::Skip { .. } | Stmt::Assign { .. } | Stmt::Send { .. } | Stmt::Receive { .. } => {
            skipped(alloc, NOWHERE)
        }
        Stmt::Then { parts } | Stmt::Beside { parts } => {
            let mut made = Vec::new(alloc);
            for part in parts {
                add(&mut made, call_sends(alloc, part))?;
            }
            grouped(alloc, s, made)
        }
        Stmt::Select { again, arms } => {
            let mut made = Vec::new(alloc);
            for arm in arms {
                add_zero_arm(alloc, &mut made, call_sends(alloc, &arm.body))?;
            }
            selected(alloc, *again, made)
        }
        Stmt::Repeat { body } => repeated(alloc, call_sends(alloc, body)),
        Stmt::Call { of } => zero_sent(alloc, of),
    }
}

/// The program without procedures of these declarations and this body, if both could be made.
pub(crate) fn plain_program(
    alloc: Global,
    decls: Result<Vec<Decl>, AllocError>,
    body: Made,
) -> Result<Program, AllocError>
    ensures decls { IfOk result (λ made. decls ≡ Ok made.decls) }
    ensures procs { IfOk result (λ made. made.procs.items ≡ []) }
    ensures body { IfOk result (λ made. IfOk body (λ b. made.body ≡ b.value)) }
    ensures made { OnOk result (IsOk body) }
{
    let decls = decls?;
    let body = body?;
    Ok(Program {
        decls,
        procs: Vec::new(alloc),
        body: Box::into_inner(body),
    })
}

/// The program in which each procedure is a channel, each call a send on it, and all else is skipped.
pub(crate) fn calls_program(alloc: Global, program: &Program) -> Result<Program, AllocError>
    ensures { IfOk result (λ made. tree_of made ≡ calls_program (tree_of program.now)) }
{
    let decls = call_channels(alloc, &program.procs);
    let body = call_sends(alloc, &program.body);
    plain_program(alloc, decls, body)
}
