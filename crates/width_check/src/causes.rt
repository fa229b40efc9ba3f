//! The first of the causes for which a program is refused.

ghost use Rattle.std.specs.Prelude.{◌≡◌, IfOk, IfErr};
ghost use Rattle.chp_syntax.specs.Tokens.{IfRefused};
ghost use Rattle.width_check.specs.Refusing.{AreNone, IsFirstCause};
ghost use Rattle.width_check.specs.Walk as walk;

use crate::findings::earlier;
use chp_base::{Fault, FaultCode, Span, TextError};

/// A cause, and the first span at which it holds, if there is one.
#[derive(Clone, Copy)]
pub struct Cause {
    pub code: FaultCode,
    pub place: Option<Span>,
}

/// The earlier of two spans, either of which may be missing.
pub fn earlier_of(first: Option<Span>, second: Option<Span>) -> Option<Span>
    ensures { result ≡ walk.earlier_of first second }
{
    match second {
        Some(place) => earlier(first, place),
        None => first,
    }
}

/// Refuses for the first of the causes that has a span, if there is one.
pub fn refuse(causes: &[Cause]) -> Result<(), TextError>
    ensures none { IfOk result (λ done. AreNone causes.now) }
    ensures first { IfErr result (IfRefused (λ f. IsFirstCause causes.now f.code f.at)) }
    ensures other { IfErr result (IfRefused (λ f. f.other ≡ f.at)) }
{
    for cause in causes {
        if let Some(at) = cause.place {
            return Err(TextError::Refused(Fault {
                code: cause.code,
                at,
                other: at,
            }));
        }
    }
    Ok(())
}
