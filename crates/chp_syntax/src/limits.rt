//! What is refused in a list of tokens before it is parsed.

ghost use Rattle.std.specs.Prelude.{◌≡◌, ◌≤◌, false, IfSome, IfNone};
ghost use Rattle.chp_syntax.specs.Reading.{depth_after, IsShallow};
ghost use Rattle.chp_syntax.specs.Limits.{is_probe, is_arbiter, has_kind, IsFirstToken, GoesOver};

use crate::token::{Mark, Token, TokenKind};
use chp_base::Span;

/// How many brackets may be open at once.
const MOST_OPEN: usize = 256;

fn is_probe(kind: &TokenKind) -> bool
    ensures { result ≡ is_probe kind.now }
{
    matches!(kind, TokenKind::Sign(Mark::Hash))
}

fn is_arbiter(kind: &TokenKind) -> bool
    ensures { result ≡ is_arbiter kind.now }
{
    matches!(kind, TokenKind::Sign(Mark::BracketBar))
}

/// The span of the first `#` of a probe, which our profile leaves out; None if there is none.
pub(crate) fn probe(tokens: &[Token]) -> Option<Span>
    ensures some { IfSome result (IsFirstToken is_probe tokens.now) }
    ensures none { IfNone result (has_kind is_probe tokens.now ≡ false) }
{
    for token in tokens {
        if is_probe(&token.kind) {
            return Some(token.at);
        }
    }
    None
}

/// The span of the first `[|` of an arbitrated selection, which our profile leaves out; None if there is none.
pub(crate) fn arbiter(tokens: &[Token]) -> Option<Span>
    ensures some { IfSome result (IsFirstToken is_arbiter tokens.now) }
    ensures none { IfNone result (has_kind is_arbiter tokens.now ≡ false) }
{
    for token in tokens {
        if is_arbiter(&token.kind) {
            return Some(token.at);
        }
    }
    None
}

fn depth_after(depth: usize, kind: &TokenKind) -> usize
    requires { depth ≤ 256 }
    ensures { result ≡ depth_after depth kind.now }
{
    match kind {
        TokenKind::Sign(Mark::OpenRound | Mark::OpenSquare | Mark::OpenCurly) => depth + 1,
        TokenKind::Sign(Mark::CloseRound | Mark::CloseSquare | Mark::CloseCurly) => {
            depth.saturating_sub(1)
        }
        _ => depth,
    }
}

/// The span of the first token after which more than 256 brackets are open, the limit of our profile, if there is one.
/// The signs `(`, `[` and `{` open one, and `)`, `]` and `}` close one if one is open; `[]` does neither.
pub(crate) fn too_deep(tokens: &[Token]) -> Option<Span>
    ensures some { IfSome result (GoesOver tokens.now) }
    ensures none { IfNone result (IsShallow tokens.now) }
{
    let mut depth = 0;
    for token in tokens {
        depth = depth_after(depth, &token.kind);
        if depth > MOST_OPEN {
            return Some(token.at);
        }
    }
    None
}
