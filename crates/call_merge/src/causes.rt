//! For which calls and procedures a program is refused.

ghost use Rattle.std.specs.Prelude.{◌≡◌, ◌≤◌, ℕ, List, true, not, length, map, None, Some, IfOk, IfErr, OnOk, IsErr};
ghost use Rattle.std.specs.HashSet.{contains};
ghost use Rattle.std.specs.List.{list_any};
ghost use Rattle.std.specs.Str.{bytes_eq};
ghost use Rattle.chp_base.specs.declared.span.Span.{Span};
ghost use Rattle.chp_base.specs.declared.fault.FaultCode.TheVariants as code;
ghost use Rattle.chp_syntax.specs.Shape.{IsShaped};
ghost use Rattle.chp_syntax.specs.View.{program_tree as tree_of};
ghost use Rattle.chp_syntax.specs.Tokens.{IfRefused};
ghost use Rattle.width_check.specs.Faults.{naming_faults, HasNone, IsFirstFault};
ghost use Rattle.width_check.specs.Form.{typed_form};
ghost use Rattle.width_check.specs.Typed.{program_of};
ghost use Rattle.width_check.specs.Sharing.{IsUnshared, IsFirstShared};
ghost use Rattle.width_check.specs.View.{process_of};
ghost use Rattle.width_check.specs.Walk as walk;
ghost use Rattle.call_merge.specs.CallSites.{all_calls, calls_program};
ghost use Rattle.call_merge.specs.CallFaults.{call_faults, IsNestedCall, IsUnusedProcedure, IsFirstCallFault, MeetsCalling};
ghost use Rattle.call_merge.specs.CallEnds.{IfRefusedCall, IsRefusedFor, IsNoCount};
ghost use Rattle.call_merge.specs.declared.error.CallError.TheVariants.{Refused};

use crate::channels::calls_program;
use crate::error::CallError;
use crate::sites::{all_calls, nested_calls, note_names, table_of};
use chp_base::{Fault, FaultCode, Name, Span, TextError};
use chp_syntax::{Ident, Proc, Program};
use sharing_check::share;
use std::alloc::{AllocError, Global};
use std::collections::HashSet;
use width_check::{Typed, resolve};

/// Whether a place is before another: it begins before it, or at the same byte and ends behind it.
fn is_earlier(place: Span, than: Span) -> bool
    ensures { result ≡ walk.is_earlier place than }
{
    place.from < than.from || (place.from == than.from && than.to < place.to)
}

/// The first of the places that were found, after one more was.
fn earlier(first: Option<Span>, place: Span) -> Option<Span>
    ensures { result ≡ walk.earlier first place }
{
    match first {
        Some(found) => {
            if is_earlier(place, found) {
                Some(place)
            } else {
                Some(found)
            }
        }
        None => Some(place),
    }
}

fn refusal(code: FaultCode, at: Span, other: Span) -> CallError
    ensures { result ≡ Refused (record { code = code; at = at; other = other }) }
{
    CallError::Refused(Fault { code, at, other })
}

/// A refusal for the cause, where it has a place.
fn refuse(code: FaultCode, place: Option<Span>) -> Result<(), CallError>
    ensures none { OnOk result (place ≡ None) }
    ensures some { IfErr result (λ e. (at : Span) × (place ≡ Some at)
        × (e ≡ Refused (record { code = code; at = at; other = at }))) }
{
    match place {
        Some(at) => Err(refusal(code, at, at)),
        None => Ok(()),
    }
}

/// The first of the places of some names.
fn first_place(names: &[Ident]) -> Option<Span>
    ensures { result ≡ walk.first_of (λ _. true) (λ i. i.at) None names.now }
{
    let mut first = None;
    for name in names {
        first = earlier(first, name.at);
    }
    first
}

/// The names that are called anywhere.
fn called_names(alloc: Global, program: &Program) -> Result<HashSet<Name>, AllocError>
    ensures { IfOk result (λ called. (name : List ℕ) → contains bytes_eq called name
        ≡ list_any (bytes_eq name) (map (λ i. i.name) (all_calls (tree_of program.now)))) }
{
    let mut names = Vec::new(alloc);
    note_names(&mut names, &all_calls(alloc, program)?)?;
    table_of(alloc, names)
}

/// The first of the places of the procedures that aren't among the called names.
fn first_unused(procs: &[Proc], called: &HashSet<Name>) -> Option<Span>
    ensures { result ≡ walk.first_of (λ q. not (contains bytes_eq called.now q.name.name)) (λ q. q.name.at) None
        procs.now }
{
    let mut first = None;
    for procedure in procs {
        if !called.contains(&procedure.name.name) {
            first = earlier(first, procedure.name.at);
        }
    }
    first
}

/// Refuses a program with a call in the body of a procedure.
fn refuse_nested(alloc: Global, program: &Program) -> Result<(), CallError>
    ensures none { OnOk result ((s : Span) → ¬ IsNestedCall (tree_of program.now) s) }
    ensures first { IfErr result (IfRefusedCall (IsRefusedFor (tree_of program.now) code.NestedCall)) }
    ensures fault { IfErr result IsNoCount }
{
    let nested = nested_calls(alloc, &program.procs)?;
    refuse(FaultCode::NestedCall, first_place(&nested))
}

/// Refuses a program with a procedure that no call names.
fn refuse_unused(alloc: Global, program: &Program) -> Result<(), CallError>
    ensures none { OnOk result ((s : Span) → ¬ IsUnusedProcedure (tree_of program.now) s) }
    ensures first { IfErr result (IfRefusedCall (IsRefusedFor (tree_of program.now) code.UnusedProcedure)) }
    ensures fault { IfErr result IsNoCount }
{
    let called = called_names(alloc, program)?;
    refuse(
        FaultCode::UnusedProcedure,
        first_unused(&program.procs, &called),
    )
}

/// Refuses a program of calls in which two of one procedure are parallel.
fn refuse_shared(alloc: Global, calls: Typed) -> Result<(), CallError>
    requires variables { IsUnshared (process_of calls.body) code.SharedVariable }
    requires receives { IsUnshared (process_of calls.body) code.SharedReceive }
    ensures none { OnOk result (IsUnshared (process_of calls.body) code.SharedSend) }
    ensures code { IfErr result (IfRefusedCall (λ f. f.code ≡ code.SharedProcedure)) }
    ensures first { IfErr result (IfRefusedCall (λ f.
        IsFirstShared (process_of calls.body) code.SharedSend f.at f.other)) }
    ensures fault { IfErr result IsNoCount }
{
    // what is shared is dropped by `and`, in one call
    match share(alloc, calls).and(Ok(())) {
        Ok(()) => Ok(()),
        Err(TextError::Refused(fault)) => {
            Err(refusal(FaultCode::SharedProcedure, fault.at, fault.other))
        }
        Err(TextError::NoMemory(error)) => Err(CallError::NoMemory(error)),
    }
}

/// The refusal of a program, of whose program of calls the names are refused.
fn refuse_names(alloc: Global, program: &Program, fault: Fault) -> Result<(), CallError>
    requires { IsFirstFault (calls_program (tree_of program.now)) naming_faults fault.code fault.at }
    ensures refused { IfErr result (IfRefusedCall (λ f.
        IsFirstCallFault (tree_of program.now) call_faults f.code f.at f.other)) }
    ensures err { IsErr result }
    ensures fault { IfErr result IsNoCount }
{
    if fault.code == FaultCode::DoubleName {
        return Err(refusal(FaultCode::DoubleProcedure, fault.at, fault.at));
    }
    refuse_nested(alloc, program)?;
    Err(refusal(FaultCode::UnknownProcedure, fault.at, fault.at))
}

/// The typed form of a program's calls alone, where its procedures have names of their own and each call one of these.
fn resolved_calls(alloc: Global, program: &Program) -> Result<Typed, TextError>
    requires few { length program.now.procs.items ≤ 300000 }
    requires shaped { IsShaped (tree_of program.now) }
    ensures accepted { IfOk result (λ typed. HasNone (calls_program (tree_of program.now)) naming_faults) }
    ensures form { IfOk result (λ typed. program_of typed ≡ typed_form (calls_program (tree_of program.now))) }
    ensures place { IfErr result (IfRefused (λ f.
        IsFirstFault (calls_program (tree_of program.now)) naming_faults f.code f.at)) }
{
    let calls = calls_program(alloc, program)?;
    let typed = resolve(alloc, &calls);
    // at the end of the body it would be dropped part by part, which makes a long proof; this is one call
    drop(calls);
    typed
}

/// Refuses a program with a call in the body of a procedure, or else with a procedure that no call names.
fn refuse_uncalled(alloc: Global, program: &Program) -> Result<(), CallError>
    requires { HasNone (calls_program (tree_of program.now)) naming_faults }
    ensures nested { OnOk result ((s : Span) → ¬ IsNestedCall (tree_of program.now) s) }
    ensures unused { OnOk result ((s : Span) → ¬ IsUnusedProcedure (tree_of program.now) s) }
    ensures refused { IfErr result (IfRefusedCall (λ f.
        IsFirstCallFault (tree_of program.now) call_faults f.code f.at f.other)) }
    ensures fault { IfErr result IsNoCount }
{
    refuse_nested(alloc, program)?;
    refuse_unused(alloc, program)
}

/// Refuses a program for the first fault of its procedures and calls.
pub(crate) fn refuse_calls(alloc: Global, program: &Program) -> Result<(), CallError>
    requires few { length program.now.procs.items ≤ 300000 }
    requires shaped { IsShaped (tree_of program.now) }
    ensures meets { OnOk result (MeetsCalling (tree_of program.now)) }
    ensures refused { IfErr result (IfRefusedCall (λ f.
        IsFirstCallFault (tree_of program.now) call_faults f.code f.at f.other)) }
    ensures fault { IfErr result IsNoCount }
{
    match resolved_calls(alloc, program) {
        Ok(typed) => {
            let typed = refuse_uncalled(alloc, program).and(Ok(typed))?;
            refuse_shared(alloc, typed)
        }
        Err(TextError::Refused(fault)) => refuse_names(alloc, program, fault),
        Err(TextError::NoMemory(error)) => Err(CallError::NoMemory(error)),
    }
}
