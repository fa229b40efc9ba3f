//! How many statements and expressions a program has.

ghost use Rattle.std.specs.Prelude.{◌≡◌, ◌+◌};
ghost use Rattle.chp_syntax.specs.View.{expression_of, statement_of};
ghost use Rattle.call_merge.specs.CallForms.{capped_forms, expression_forms, statement_forms};
ghost use Rattle.call_merge.specs.Inlining.{inlined_statement};
ghost use Rattle.call_merge.specs.Bodies.{procedures_in};

use crate::bodies::Procedures;
use chp_syntax::{Expr, Stmt};
use std::alloc::Global;

/// The number of forms of an expression.
fn expression_forms(e: &Expr) -> u64
    ensures { result ≡ capped_forms (expression_forms (expression_of e.now)) }
{
    match e {
        Expr::Number { .. } | Expr::Whole { .. } | Expr::Slice { .. } | Expr::Bit { .. } => 1,
        Expr::Join { parts, .. } => {
            let mut forms = 1u64;
            for part in parts {
                forms = forms.saturating_add(expression_forms(part));
            }
            forms
        }
        Expr::Not { inner, .. } => expression_forms(inner).saturating_add(1),
        Expr::Chain { first, rest, .. } => {
            let mut forms = expression_forms(first).saturating_add(1);
            for link in rest {
                forms = forms.saturating_add(expression_forms(&link.right));
            }
            forms
        }
    }
}

/// The number of forms of a statement in which each call is its procedure's body.
pub(crate) fn inlined_forms(procs: &Procedures, s: &Stmt) -> u64
    ensures { result
        ≡ capped_forms (statement_forms (inlined_statement (procedures_in procs.now) (statement_of s.now))) }
{
    match s {
        Stmt::Skip { .. } | Stmt::Receive { .. } => 1,
        Stmt::Assign { value, .. } | Stmt::Send { value, .. } => {
            expression_forms(value).saturating_add(1)
        }
        Stmt::Then { parts } | Stmt::Beside { parts } => {
            let mut forms = 1u64;
            for part in parts {
                forms = forms.saturating_add(inlined_forms(procs, part));
            }
            forms
        }
        Stmt::Select { arms, .. } => {
            let mut forms = 1u64;
            for arm in arms {
                forms = forms.saturating_add(expression_forms(&arm.guard));
                forms = forms.saturating_add(inlined_forms(procs, &arm.body));
            }
            forms
        }
        Stmt::Repeat { body } => inlined_forms(procs, body).saturating_add(1),
        Stmt::Call { of } => procs.forms_of(&of.name),
    }
}

/// The number of forms of a statement.
pub(crate) fn statement_forms(alloc: Global, s: &Stmt) -> u64
    ensures { result ≡ capped_forms (statement_forms (statement_of s.now)) }
{
    inlined_forms(&Procedures::new(alloc), s)
}
