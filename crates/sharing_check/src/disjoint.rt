//! Programs that meet the sharing rule.

ghost use Rattle.std.specs.Prelude.{◌≡◌, OnOk, IfOk, IfErr};
ghost use Rattle.chp_syntax.specs.Tokens.{IfRefused};
ghost use Rattle.width_check.specs.View.{process_of};
ghost use Rattle.width_check.specs.Sharing.{MeetsSharing, IsUnshared, IsFirstShared};
ghost use Rattle.width_check.specs.Sharing.{IsFirstSharedFault, sharing_faults};

use crate::deeds::first_clash;
use chp_base::{Fault, FaultCode, TextError};
use std::alloc::Global;
use std::marker::Model;
use width_check::{TStmt, Typed};

/// A program that meets the sharing rule: no two parallel branches use one variable that one of them writes, send
/// on one channel, or receive on one channel. Its view in contracts is the program.
#[derive(Drop)]
pub struct Disjoint {
    typed: Typed,
}

impl Model for Disjoint {
    ghost use Rattle.width_check.specs.Typed.{TypedValue};
    ghost use Rattle.width_check.specs.View.{process_of};
    ghost use Rattle.width_check.specs.Sharing.{MeetsSharing};
    ghost use Rattle.width_check.specs.contracts.typed.TStmt as statement;
    ghost use Rattle.std.specs.Coded.{codes};

    ghost Value = { TypedValue };

    ghost coded = { Prim.hlevel (codes, statement.the_row.coded) };

    ghost view = { λ d. d.typed };

    ghost invariant = { λ d. MeetsSharing (process_of d.typed.body) };
}

impl Disjoint {
    /// The program.
    pub fn typed(&self) -> &Typed
        ensures program { result.now ≡ self.now }
        ensures meets { MeetsSharing (process_of self.now.body) }
    {
        &self.typed
    }
}

/// Refuses a program if the cause holds at a pair of parallel spans.
fn refuse_shared(alloc: Global, cause: FaultCode, body: &TStmt) -> Result<(), TextError>
    ensures unshared { OnOk result (IsUnshared (process_of body.now) cause) }
    ensures cause { IfErr result (IfRefused (λ f. f.code ≡ cause)) }
    ensures place { IfErr result (IfRefused (λ f. IsFirstShared (process_of body.now) cause f.at f.other)) }
{
    match first_clash(alloc, cause, body)? {
        Some(clash) => Err(TextError::Refused(Fault {
            code: cause,
            at: clash.first,
            other: clash.second,
        })),
        None => Ok(()),
    }
}

/// Refuses a program for the first of the causes that holds at a pair of parallel spans.
fn refuse_all(alloc: Global, body: &TStmt) -> Result<(), TextError>
    ensures meets { OnOk result (MeetsSharing (process_of body.now)) }
    ensures place { IfErr result (IfRefused (λ f.
        IsFirstSharedFault (process_of body.now) sharing_faults f.code f.at f.other)) }
    ensures refused { IfErr result (IfRefused (λ _. ¬ MeetsSharing (process_of body.now))) }
{
    refuse_shared(alloc, FaultCode::SharedVariable, body)?;
    refuse_shared(alloc, FaultCode::SharedSend, body)?;
    refuse_shared(alloc, FaultCode::SharedReceive, body)
}

/// The program, if it meets the sharing rule.
///
/// Else it is refused for a variable that one parallel branch writes and another one uses (30), or for a channel on
/// which two parallel branches send (31) or receive (32), tested in this order. Of the pairs of spans for the first of
/// these causes the one with the least second span is reported, and of those the one with the least first span: `at` is
/// the span of the first name, `other` that of the second. The rule, the order of its causes and the spans are our
/// profile's. A program that is refused is dropped.
pub fn share(alloc: Global, typed: Typed) -> Result<Disjoint, TextError>
    ensures program { IfOk result (λ d. d ≡ typed) }
    ensures meets { OnOk result (MeetsSharing (process_of typed.body)) }
    ensures place { IfErr result (IfRefused (λ f.
        IsFirstSharedFault (process_of typed.body) sharing_faults f.code f.at f.other)) }
    ensures refused { IfErr result (IfRefused (λ _. ¬ MeetsSharing (process_of typed.body))) }
{
    match refuse_all(alloc, typed.body()) {
        Ok(()) => Ok(Disjoint { typed }),
        Err(error) => {
            // One call, where the end of the block would let go of it variant by variant.
            drop(typed);
            Err(error)
        }
    }
}
