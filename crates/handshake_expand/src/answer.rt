//! The nodes that answer statements.

ghost use Rattle.std.specs.Prelude.{◌≡◌, ◌+◌, ◌^◌, ◌<◌};
ghost use Rattle.width_check.specs.Processes.{assigning};
ghost use Rattle.width_check.specs.Typed.{program_of};
ghost use Rattle.width_check.specs.Typing.{IsProcess};
ghost use Rattle.width_check.specs.View.{formula_of, process_of};
ghost use Rattle.width_check.specs.Values.{IsWellFormed};
ghost use Rattle.chp_base.specs.declared.span.Span.{Span};
ghost use Rattle.handshake_expand.specs.Answers.{answer_of};
ghost use Rattle.handshake_expand.specs.Layout.{assign_size, size_of};

use crate::count::{block_nodes, statement_nodes, var_bits};
use crate::expr::{expr_nodes, reads};
use width_check::{TExpr, TStmt, Typed};

/// The node that answers an assignment: its first one or, if it goes through a hidden variable, the one by which the
/// second assignment answers.
fn assign_answer(program: &Typed, var: u32, value: &TExpr, from: u32) -> u32
    requires formed { IsWellFormed (formula_of value.now) }
    requires room { from + assign_size (program_of program.now) var (formula_of value.now) < 2 ^ 32 }
    ensures { (at : Span) → result ≡ answer_of (program_of program.now) (assigning var at (formula_of value.now)) from }
{
    if reads(value, var) {
        from + (block_nodes(var_bits(program, var)) + 4 + expr_nodes(value)) as u32
    } else {
        from
    }
}

/// The node that answers a statement of the program whose nodes are numbered from `from` on.
pub fn answer_node(program: &Typed, s: &TStmt, from: u32) -> u32
    requires process { IsProcess program.now.channels program.now.vars (process_of s.now) }
    requires room { from + size_of (program_of program.now) (process_of s.now) < 2 ^ 32 }
    ensures { result ≡ answer_of (program_of program.now) (process_of s.now) from }
{
    match s {
        TStmt::Assign { var, value, .. } => assign_answer(program, *var, value, from),
        TStmt::Then { parts } => {
            let last = parts.len() - 1;
            let mut next = from;
            for place in 0..last {
                next += 3 + statement_nodes(program, &parts[place]) as u32;
            }
            answer_node(program, &parts[last], next)
        }
        TStmt::Beside { .. } => from + statement_nodes(program, s) as u32 - 1,
        _ => from,
    }
}
