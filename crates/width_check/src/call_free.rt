//! Whether a program has neither procedures nor calls.

ghost use Rattle.std.specs.Prelude.{◌≡◌};
ghost use Rattle.std.specs.Bool.{Decides};
ghost use Rattle.chp_syntax.specs.View.{program_tree, statement_of};
ghost use Rattle.width_check.specs.Calls.{has_call, IsCallFree};

use chp_syntax::{Program, Stmt};

/// Whether a statement contains a call.
fn has_call(s: &Stmt) -> bool
    ensures { result ≡ has_call (statement_of s.now) }
{
    match s {
        Stmt::Skip { .. } | Stmt::Assign { .. } | Stmt::Send { .. } | Stmt::Receive { .. } => false,
        Stmt::Then { parts } | Stmt::Beside { parts } => {
            for part in parts {
                if has_call(part) {
                    return true;
                }
            }
            false
        }
        Stmt::Select { arms, .. } => {
            for arm in arms {
                if has_call(&arm.body) {
                    return true;
                }
            }
            false
        }
        Stmt::Repeat { body } => has_call(body),
        Stmt::Call { .. } => true,
    }
}

/// Whether a program has neither procedures nor calls, as `resolve` requires.
pub fn is_call_free(program: &Program) -> bool
    ensures { Decides result (IsCallFree (program_tree program.now)) }
{
    program.procs.is_empty() && !has_call(&program.body)
}
