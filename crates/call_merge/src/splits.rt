//! Procedures in which each assignment that reads its own target goes by a variable of its own.

ghost use Rattle.std.specs.Prelude.{◌≡◌, ◌+◌, ◌≤◌, length, IfOk, OnOk};
ghost use Rattle.chp_syntax.specs.View.{expression_of, statement_of, program_tree as tree_of};
ghost use Rattle.call_merge.specs.Bodies.{procedures_of};
ghost use Rattle.call_merge.specs.CallSplits.{reads_itself, own_readers, all_own_readers, through_own, split_statement, split_procedures, own_names};

use crate::bodies::Body;
use crate::copies::{
    Made, add, add_arm, copied, copied_expression, copied_name, grouped, repeated, selected,
};
use crate::firsts::FirstDecls;
use crate::forms::statement_forms;
use crate::own_vars::reads_itself;
use chp_base::Name;
use chp_syntax::{Decl, Expr, Ident, Proc, Program, Stmt};
use std::alloc::{AllocError, Global};

/// The variable, where the target stands.
fn name_at(name: &Name, target: &Ident) -> Result<Ident, AllocError>
    ensures { IfOk result (λ made. made ≡ record { name = name.now; at = target.now.at }) }
{
    Ok(Ident {
        name: name.copy()?,
        at: target.at,
    })
}

/// `h := e; x := h`
#[inline(never)]
fn through_own(alloc: Global, name: &Name, target: &Ident, value: &Expr) -> Made
    ensures { IfOk result (λ made.
        statement_of made.value ≡ through_own name.now target.now (expression_of value.now)) }
{
    let mut parts = Vec::new(alloc);
    parts.push(Stmt::Assign {
        target: name_at(name, target)?,
        value: copied_expression(alloc, value)?,
    })?;
    parts.push(Stmt::Assign {
        target: copied_name(target)?,
        value: Expr::Whole {
            of: name_at(name, target)?,
        },
    })?;
    Ok(Box::new(alloc, Stmt::Then { parts })?)
}

/// The statement with each assignment that reads its own target in halves, by the variables from a place on. The place
/// moves behind those that are used.
fn split(alloc: Global, decls: &FirstDecls, vars: &[Decl], place: &mut usize, s: &Stmt) -> Made
    requires { place.old + length (own_readers decls.now (statement_of s.now)) ≤ length vars.now }
    ensures made { IfOk result (λ made.
        statement_of made.value ≡ split_statement decls.now (own_names vars.now) place.old (statement_of s.now)) }
    ensures place { OnOk result (place.new ≡ place.old + length (own_readers decls.now (statement_of s.now))) }
{
    match s {
        Stmt::Skip { .. } | Stmt::Send { .. } | Stmt::Receive { .. } | Stmt::Call { .. } => {
            copied(alloc, s)
        }
        Stmt::Assign { target, value } => {
            if !reads_itself(alloc, decls, target, value)? {
                return copied(alloc, s);
            }
            let made = through_own(alloc, &vars[*place].name.name, target, value)?;
            *place += 1;
            Ok(made)
        }
        Stmt::Then { parts } | Stmt::Beside { parts } => {
            let mut made = Vec::new(alloc);
            for part in parts {
                add(&mut made, split(alloc, decls, vars, place, part))?;
            }
            grouped(alloc, s, made)
        }
        Stmt::Select { again, arms } => {
            let mut made = Vec::new(alloc);
            for arm in arms {
                let body = split(alloc, decls, vars, place, &arm.body);
                add_arm(alloc, &mut made, &arm.guard, body)?;
            }
            selected(alloc, *again, made)
        }
        Stmt::Repeat { body } => repeated(alloc, split(alloc, decls, vars, place, body)),
    }
}

/// The procedure with the number of its forms.
fn body_of(alloc: Global, name: Ident, body: Stmt) -> Body
    ensures name { result.procedure.name ≡ name }
    ensures body { result.procedure.body ≡ body }
{
    let forms = statement_forms(alloc, &body);
    Body {
        procedure: Proc { name, body },
        forms,
    }
}

/// The procedures, each with its body split.
pub(crate) fn split_procedures(
    alloc: Global,
    decls: &FirstDecls,
    program: &Program,
    vars: &[Decl],
) -> Result<Vec<Body>, AllocError>
    requires same { decls.now ≡ program.now.decls.items }
    requires room { length (all_own_readers (tree_of program.now)) ≤ length vars.now }
    ensures { IfOk result (λ made. procedures_of made.items ≡
        split_procedures program.now.decls.items (own_names vars.now) 0 (tree_of program.now).procs) }
{
    let mut made = Vec::new(alloc);
    let mut place = 0;
    for procedure in &program.procs {
        let name = copied_name(&procedure.name)?;
        let body = split(alloc, decls, vars, &mut place, &procedure.body)?;
        made.push(body_of(alloc, name, Box::into_inner(body)))?;
    }
    Ok(made)
}
