//! The program in which each call is its procedure's body.

ghost use Rattle.std.specs.Prelude.{◌≡◌, ◌<◌, ◌≤◌, ◌+◌, ◌++◌, ℕ, List, [], All, length, map, slice_get, Some, IfOk, IfErr, OnOk};
ghost use Rattle.chp_base.specs.Names.{IsName};
ghost use Rattle.chp_syntax.specs.Shape.{IsShaped};
ghost use Rattle.chp_syntax.specs.View.{program_tree as tree_of, statement_of};
ghost use Rattle.width_check.specs.Calls.{IsCallFree};
ghost use Rattle.call_merge.specs.CallFaults.{call_faults, IsFirstCallFault, MeetsCalling};
ghost use Rattle.call_merge.specs.CallEnds.{IfRefusedCall, IfTooManyForms};
ghost use Rattle.call_merge.specs.CallForms.{statement_forms, most_forms, most_own_vars};
ghost use Rattle.call_merge.specs.Bodies.{procedures_in};
ghost use Rattle.call_merge.specs.CallSplits.{AreOwnVars, all_names, all_own_readers, own_names, split_procedures};
ghost use Rattle.call_merge.specs.declared.error.CallError.TheVariants.{TooManyForms};
ghost use Rattle.call_merge.specs.Inlining.{inlined_statement, IsInlined, HasTooManyForms};

use crate::bodies::Procedures;
use crate::causes::refuse_calls;
use crate::channels::plain_program;
use crate::copies::{
    Made, add, add_arm, called, copied, copied_decls, grouped, repeated, selected,
};
use crate::error::CallError;
use crate::firsts::FirstDecls;
use crate::forms::inlined_forms;
use crate::own_vars::own_vars;
use crate::splits::split_procedures;
use chp_base::Symbols;
use chp_syntax::{Decl, Proc, Program, Stmt};
use std::alloc::{AllocError, Global};

/// The most forms of an inlined program.
const MOST_FORMS: u64 = 1_048_576;

/// The names of procedures, none of which is there twice, in their order.
fn names_of(alloc: Global, procs: &[Proc]) -> Result<Symbols, AllocError>
    requires few { length procs.now ≤ 300000 }
    requires distinct { (k j : ℕ) (name : List ℕ) → k < j → slice_get (map (λ q. q.name.name) procs.now) k ≡ Some name
        → ¬ (slice_get (map (λ q. q.name.name) procs.now) j ≡ Some name) }
    ensures { IfOk result (λ names. names ≡ map (λ q. q.name.name) procs.now) }
{
    let mut names = Symbols::new(alloc);
    for procedure in procs {
        names.add(procedure.name.name.copy()?)?;
    }
    Ok(names)
}

/// The statement with each call its procedure's body.
fn inlined(alloc: Global, procs: &Procedures, s: &Stmt) -> Made
    ensures { IfOk result (λ made.
        statement_of made.value ≡ inlined_statement (procedures_in procs.now) (statement_of s.now)) }
{
    match s {
        Stmt::Skip { .. } | Stmt::Assign { .. } | Stmt::Send { .. } | Stmt::Receive { .. } => {
            copied(alloc, s)
        }
        Stmt::Then { parts } | Stmt::Beside { parts } => {
            let mut made = Vec::with_capacity(alloc, parts.len())?;
            for part in parts {
                add(&mut made, inlined(alloc, procs, part))?;
            }
            grouped(alloc, s, made)
        }
        Stmt::Select { again, arms } => {
            let mut made = Vec::with_capacity(alloc, arms.len())?;
            for arm in arms {
                let body = inlined(alloc, procs, &arm.body);
                add_arm(alloc, &mut made, &arm.guard, body)?;
            }
            selected(alloc, *again, made)
        }
        Stmt::Repeat { body } => repeated(alloc, inlined(alloc, procs, body)),
        Stmt::Call { of } => match procs.find(&of.name) {
            Some(body) => copied(alloc, &body.procedure.body),
            None => called(alloc, of),
        },
    }
}

/// The procedures of a program, their bodies split, and the variables that this declares.
#[derive(Drop)]
struct SplitBodies {
    procs: Procedures,
    vars: Vec<Decl>,
}

/// Splits the bodies of the procedures.
fn split_bodies(alloc: Global, program: &Program) -> Result<SplitBodies, AllocError>
    requires few { length program.now.procs.items ≤ 300000 }
    requires meets { MeetsCalling (tree_of program.now) }
    ensures own { IfOk result (λ made. AreOwnVars program.now.decls.items (all_names (tree_of program.now))
        (all_own_readers (tree_of program.now)) made.vars.items) }
    ensures names { IfOk result (λ made. All (λ d. IsName d.name.name) made.vars.items) }
    ensures bodies { IfOk result (λ made. procedures_in made.procs ≡ split_procedures program.now.decls.items
        (own_names made.vars.items) 0 (tree_of program.now).procs) }
{
    let firsts = FirstDecls::new(alloc, &program.decls)?;
    let vars = own_vars(alloc, &firsts, program)?;
    let bodies = split_procedures(alloc, &firsts, program, &vars)?;
    let names = names_of(alloc, &program.procs)?;
    Ok(SplitBodies {
        procs: Procedures { names, bodies },
        vars,
    })
}

/// Copies of the declarations, and these behind them.
fn decls_with(alloc: Global, decls: &[Decl], mut more: Vec<Decl>) -> Result<Vec<Decl>, AllocError>
    ensures { IfOk result (λ made. made.items ≡ decls.now ++ more.items) }
{
    let mut made = copied_decls(alloc, decls)?;
    made.append(&mut more)?;
    Ok(made)
}

/// The program with each call its procedure's body, without procedures, and with the new variables declared last.
fn with_bodies(alloc: Global, program: &Program, split: SplitBodies) -> Result<Program, AllocError>
    ensures decls { IfOk result (λ made. made.decls.items ≡ program.now.decls.items ++ split.vars.items) }
    ensures procs { IfOk result (λ made. made.procs.items ≡ []) }
    ensures body { IfOk result (λ made. statement_of made.body
        ≡ inlined_statement (procedures_in split.procs) (statement_of program.now.body)) }
{
    let body = inlined(alloc, &split.procs, &program.body);
    let decls = decls_with(alloc, &program.decls, split.vars);
    plain_program(alloc, decls, body)
}

/// Refuses a program that would have so many statements and expressions, if that is more than are served.
fn refuse_forms(forms: u64) -> Result<(), CallError>
    ensures few { OnOk result (forms ≤ most_forms) }
    ensures too_many { IfErr result (λ e. (e ≡ TooManyForms forms) × (most_forms < forms)) }
{
    if forms > MOST_FORMS {
        return Err(CallError::TooManyForms(forms));
    }
    Ok(())
}

/// The program with each call replaced by its procedure's body, and without procedures.
///
/// It is refused at a procedure with the name of an earlier one (34), else at a call in the body of a procedure (37),
/// at a call of a name that no procedure has (35), at a procedure that no call names (36), and where two calls of one
/// procedure are parallel (33). The causes are tested in this order, each over the whole program, and reported at the
/// first place in the text. For the last one `at` and `other` are the called names of the pair with the least second
/// place, and among those with the least first; for all others they are the same. Then a program is refused that would
/// have more than 1,048,576 statements and expressions. It takes no memory for that program before.
///
/// In the body of a procedure an assignment to a variable that stands in its own value is first made two: to a variable
/// of its own, and from there. These variables are declared last, in the order of the assignments. Each is named `h`
/// with a number, the least for which no name of the program and no variable before it has that name; it has the width
/// that is declared first for the target, and begins with 0. So no node of a body's circuit but those of declared
/// variables keeps a value between two calls. A program with neither procedures nor calls is answered as it is. What is
/// answered has the shape of the grammar and neither procedures nor calls. Each of these variables comes with five
/// statements and expressions at least, so there are at most 209,715. (All of this is our profile's.)
pub fn inline(alloc: Global, program: &Program) -> Result<Program, CallError>
    requires few { length program.now.procs.items ≤ 300000 }
    requires shaped { IsShaped (tree_of program.now) }
    ensures inlined { IfOk result (λ made. IsInlined (tree_of program.now) (tree_of made)) }
    ensures meets { OnOk result (MeetsCalling (tree_of program.now)) }
    ensures few { IfOk result (λ made. statement_forms (tree_of made).body ≤ most_forms) }
    ensures shaped { IfOk result (λ made. IsShaped (tree_of made)) }
    ensures call_free { IfOk result (λ made. IsCallFree (tree_of made)) }
    ensures decls { IfOk result (λ made. length made.decls.items ≤ length program.now.decls.items + most_own_vars) }
    ensures same { IsCallFree (tree_of program.now) → IfOk result (λ made. tree_of made ≡ tree_of program.now) }
    ensures refused { IfErr result (IfRefusedCall (λ f.
        IsFirstCallFault (tree_of program.now) call_faults f.code f.at f.other)) }
    ensures too_many { IfErr result (IfTooManyForms (HasTooManyForms (tree_of program.now))) }
    ensures counted { IfErr result (IfTooManyForms (λ _. MeetsCalling (tree_of program.now))) }
{
    refuse_calls(alloc, program)?;
    let split = split_bodies(alloc, program)?;
    refuse_forms(inlined_forms(&split.procs, &program.body))?;
    let made = with_bodies(alloc, program, split)?;
    Ok(made)
}
