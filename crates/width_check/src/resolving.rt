//! From a program as parsed to the same program with its names and widths resolved.

ghost use Rattle.std.specs.Prelude.{◌≡◌, ◌≤◌, [], length, None, IfOk, IfErr};
ghost use Rattle.chp_syntax.specs.Shape.{IsShaped};
ghost use Rattle.chp_syntax.specs.Tokens.{IfRefused};
ghost use Rattle.chp_syntax.specs.View.{program_tree as tree_of};
ghost use Rattle.width_check.specs.Calls.{IsCallFree};
ghost use Rattle.width_check.specs.Faults.{naming_faults, HasNone, IsFirstFault};
ghost use Rattle.width_check.specs.Form.{typed_form};
ghost use Rattle.width_check.specs.Typed.{program_of};
ghost use Rattle.width_check.specs.Walk.{first_double};

use crate::causes::{Cause, earlier_of, refuse};
use crate::making::make_statement;
use crate::naming::{channels_of, first_out_of_range, first_wide, name_all, number_all, vars_of};
use crate::scope::Scope;
use crate::survey::survey;
use crate::typed::Typed;
use chp_base::{FaultCode, TextError};
use chp_syntax::Program;
use std::alloc::Global;

/// Refuses a program for the first of the causes that concern its names and widths, if there is one. Its names are
/// those of the scope, and distinct.
fn refuse_widths(scope: &Scope, program: &Program) -> Result<(), TextError>
    requires scope { scope.now.decls.now ≡ program.now.decls.items }
    requires distinct { first_double [] None program.now.decls.items ≡ None }
    ensures accepted { IfOk result (λ done. HasNone (tree_of program.now) naming_faults) }
    ensures other { IfErr result (IfRefused (λ f. f.other ≡ f.at)) }
    ensures place { IfErr result (IfRefused (λ f. IsFirstFault (tree_of program.now) naming_faults f.code f.at)) }
{
    let decls = program.decls.as_slice();
    let found = survey(scope, &program.body);
    refuse(&[
        Cause {
            code: FaultCode::WidthRange,
            place: first_out_of_range(decls),
        },
        Cause {
            code: FaultCode::Undeclared,
            place: found.undeclared,
        },
        Cause {
            code: FaultCode::WrongKind,
            place: found.wrong_kind,
        },
        Cause {
            code: FaultCode::Direction,
            place: found.direction,
        },
        Cause {
            code: FaultCode::BadSlice,
            place: found.slice,
        },
        Cause {
            code: FaultCode::UnknownWidth,
            place: found.widthless,
        },
        Cause {
            code: FaultCode::Width,
            place: earlier_of(found.leaf, found.target),
        },
        Cause {
            code: FaultCode::ConstantTooWide,
            place: earlier_of(found.number, first_wide(decls)),
        },
    ])
}

/// The typed form of a program whose names are those of the scope, and distinct.
fn resolve_over(alloc: Global, scope: &Scope, program: &Program) -> Result<Typed, TextError>
    requires shaped { IsShaped (tree_of program.now) }
    requires call_free { IsCallFree (tree_of program.now) }
    requires scope { scope.now.decls.now ≡ program.now.decls.items }
    requires distinct { first_double [] None program.now.decls.items ≡ None }
    ensures accepted { IfOk result (λ t. HasNone (tree_of program.now) naming_faults) }
    ensures form { IfOk result (λ t. program_of t ≡ typed_form (tree_of program.now)) }
    ensures other { IfErr result (IfRefused (λ f. f.other ≡ f.at)) }
    ensures place { IfErr result (IfRefused (λ f. IsFirstFault (tree_of program.now) naming_faults f.code f.at)) }
{
    refuse_widths(scope, program)?;
    let decls = program.decls.as_slice();
    let channels = channels_of(alloc, decls)?;
    let vars = vars_of(alloc, decls)?;
    let body = make_statement(alloc, scope, &program.body)?;
    Ok(Typed::made(channels, vars, body))
}

/// The typed form of a program of the grammar's shape with at most 300,000 declarations, and with neither procedures
/// nor calls.
///
/// A program is refused at a declaration of a name that an earlier one declares (20), else at a declared width that
/// isn't in 1 to 64 (28), at a name that isn't declared (21), at a variable where a channel is expected or a channel
/// where a variable is (22), at the name of a channel that is used at the environment's end (23), at bits that the
/// variable doesn't have (27), at a part of `{..}` or a comparison without a width (26), at an expression or the
/// variable of a receive whose width isn't the expected one or a `{..}` that is wider than 64 (24), and at a number
/// that doesn't fit its width (25). The causes are tested in this order, each over the whole program, and reported at
/// the first span in the text; of two spans that begin together the longer one is first. Both spans of the fault are
/// this one. (Our profile.)
pub fn resolve(alloc: Global, program: &Program) -> Result<Typed, TextError>
    requires few { length program.now.decls.items ≤ 300000 }
    requires shaped { IsShaped (tree_of program.now) }
    requires call_free { IsCallFree (tree_of program.now) }
    ensures accepted { IfOk result (λ t. HasNone (tree_of program.now) naming_faults) }
    ensures form { IfOk result (λ t. program_of t ≡ typed_form (tree_of program.now)) }
    ensures other { IfErr result (IfRefused (λ f. f.other ≡ f.at)) }
    ensures place { IfErr result (IfRefused (λ f. IsFirstFault (tree_of program.now) naming_faults f.code f.at)) }
{
    let decls = program.decls.as_slice();
    let numbers = number_all(alloc, decls)?;
    let naming = name_all(alloc, decls)?;
    let double = Cause {
        code: FaultCode::DoubleName,
        place: naming.double,
    };
    refuse(&[double])?;
    let scope = Scope::new(decls, naming.names, numbers);
    resolve_over(alloc, &scope, program)
}
