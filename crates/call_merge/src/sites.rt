//! Where a program calls its procedures.

ghost use Rattle.std.specs.Prelude.{◌≡◌, ◌++◌, ℕ, List, map, IfOk, OnOk};
ghost use Rattle.std.specs.HashSet.{contains};
ghost use Rattle.std.specs.List.{list_any};
ghost use Rattle.std.specs.Str.{bytes_eq};
ghost use Rattle.chp_syntax.specs.View.{program_tree as tree_of, procedure_of, statement_of};
ghost use Rattle.call_merge.specs.CallSites.{calls_in, nested_calls, all_calls};

use crate::copies::copied_name;
use chp_base::Name;
use chp_syntax::{Ident, Proc, Program, Stmt};
use std::alloc::{AllocError, Global};
use std::collections::HashSet;

/// Adds the names that the statement calls.
pub(crate) fn note_calls(found: &mut Vec<Ident>, s: &Stmt) -> Result<(), AllocError>
    ensures { OnOk result (found.new.items ≡ found.old.items ++ calls_in (statement_of s.now)) }
{
    match s {
        Stmt::Skip { .. } | Stmt::Assign { .. } | Stmt::Send { .. } | Stmt::Receive { .. } => Ok(
            (),
        ),
        Stmt::Then { parts } | Stmt::Beside { parts } => {
            for part in parts {
                note_calls(found, part)?;
            }
            Ok(())
        }
        Stmt::Select { arms, .. } => {
            for arm in arms {
                note_calls(found, &arm.body)?;
            }
            Ok(())
        }
        Stmt::Repeat { body } => note_calls(found, body),
        Stmt::Call { of } => {
            found.push(copied_name(of)?)?;
            Ok(())
        }
    }
}

/// The names that are called in the bodies of procedures.
pub(crate) fn nested_calls(alloc: Global, procs: &[Proc]) -> Result<Vec<Ident>, AllocError>
    ensures { IfOk result (λ found. found.items ≡ nested_calls (map procedure_of procs.now)) }
{
    let mut found = Vec::new(alloc);
    for procedure in procs {
        note_calls(&mut found, &procedure.body)?;
    }
    Ok(found)
}

/// The names that are called anywhere.
pub(crate) fn all_calls(alloc: Global, program: &Program) -> Result<Vec<Ident>, AllocError>
    ensures { IfOk result (λ found. found.items ≡ all_calls (tree_of program.now)) }
{
    let mut found = nested_calls(alloc, &program.procs)?;
    note_calls(&mut found, &program.body)?;
    Ok(found)
}

/// Adds the names, without their places.
pub(crate) fn note_names(names: &mut Vec<Name>, found: &[Ident]) -> Result<(), AllocError>
    ensures { OnOk result (names.new.items ≡ names.old.items ++ map (λ i. i.name) found.now) }
{
    for one in found {
        names.push(one.name.copy()?)?;
    }
    Ok(())
}

/// A table of the names.
pub(crate) fn table_of(alloc: Global, names: Vec<Name>) -> Result<HashSet<Name>, AllocError>
    ensures { IfOk result (λ table. (name : List ℕ) → contains bytes_eq table name
        ≡ list_any (bytes_eq name) names.items) }
{
    names.into_iter().collect(alloc)
}
