//! Pairs of spans, and which of them comes first.

ghost use Rattle.std.specs.Prelude.{◌≡◌};
ghost use Rattle.std.specs.Bool.{Decides};
ghost use Rattle.width_check.specs.Order.{IsNoLater};
ghost use Rattle.sharing_check.specs.Leasts.{IsLeast, IsEither, IsNoLaterPair, IsInOrder};

use chp_base::Span;

/// Two spans of a program, the first no later than the second.
#[derive(Clone, Copy)]
pub(crate) struct Clash {
    pub first: Span,
    pub second: Span,
}

/// Whether a span begins before another one, or at the same byte and ends no earlier.
pub(crate) fn is_no_later(one: Span, other: Span) -> bool
    ensures { Decides result (IsNoLater one other) }
{
    one.from < other.from || (one.from == other.from && other.to <= one.to)
}

/// The pair of two spans, the earlier one first.
pub(crate) fn in_order(one: Span, other: Span) -> Clash
    ensures { IsInOrder one other result }
{
    if is_no_later(one, other) {
        Clash {
            first: one,
            second: other,
        }
    } else {
        Clash {
            first: other,
            second: one,
        }
    }
}

/// Pairs are compared by their second spans, and those with the same second span by their first.
fn is_no_later_pair(one: Clash, other: Clash) -> bool
    ensures { Decides result (IsNoLaterPair one other) }
{
    is_no_later(one.second, other.second)
        && (!is_no_later(other.second, one.second) || is_no_later(one.first, other.first))
}

fn sooner_of(one: Clash, other: Clash) -> Clash
    ensures { IsLeast IsNoLaterPair (IsEither (Some one) (Some other)) (Some result) }
{
    if is_no_later_pair(one, other) {
        one
    } else {
        other
    }
}

/// The pair that comes first, of at most two.
pub(crate) fn sooner(one: Option<Clash>, other: Option<Clash>) -> Option<Clash>
    ensures { IsLeast IsNoLaterPair (IsEither one other) result }
{
    match (one, other) {
        (Some(one), Some(other)) => Some(sooner_of(one, other)),
        (Some(one), None) => Some(one),
        (None, other) => other,
    }
}
