//! The limit on the arms of a selection.

ghost use Rattle.std.specs.Prelude.{◌≡◌, ℕ, [], reverse, true, false, IfOk, IfSome, IfNone};
ghost use Rattle.chp_syntax.specs.Seventeenth.{is_full, bar_counted, counted, is_seventeenth, is_narrow, IsSeventeenth};

use crate::token::{Mark, Token, TokenKind};
use chp_base::Span;
use std::alloc::{AllocError, Global};

/// How many signs `[]` a selection may have.
const MOST_CHOICES: u32 = 15;

/// Updates the numbers of signs `[]` in the open brackets by a token; true if it comes before a seventeenth arm.
fn count(choices: &mut Vec<u32>, kind: &TokenKind) -> Result<bool, AllocError>
    ensures seventeenth { IfOk result (λ b. b ≡ is_seventeenth (reverse choices.old.items) kind.now) }
    ensures after { IfOk result (λ b. b ≡ false →
        reverse choices.new.items ≡ counted (reverse choices.old.items) kind.now) }
{
    let mark = match kind {
        TokenKind::Sign(mark) => *mark,
        TokenKind::Word(_) => return Ok(false),
        TokenKind::Ident(_) => return Ok(false),
        TokenKind::Number(_) => return Ok(false),
    };
    match mark {
        Mark::OpenRound => choices.push(0)?,
        Mark::OpenSquare => choices.push(0)?,
        Mark::OpenCurly => choices.push(0)?,
        Mark::CloseRound => {
            choices.pop();
        }
        Mark::CloseSquare => {
            choices.pop();
        }
        Mark::CloseCurly => {
            choices.pop();
        }
        Mark::Choice => return choose(choices),
        _ => return Ok(false),
    }
    Ok(false)
}

fn choose(choices: &mut Vec<u32>) -> Result<bool, AllocError>
    ensures seventeenth { IfOk result (λ b. b ≡ is_full (reverse choices.old.items)) }
    ensures after { IfOk result (λ b. b ≡ false → reverse choices.new.items ≡ bar_counted (reverse choices.old.items)) }
{
    let Some(count) = choices.pop() else {
        return Ok(false);
    };
    if count >= MOST_CHOICES {
        return Ok(true);
    }
    choices.push(count + 1)?;
    Ok(false)
}

/// The span of the first sign `[]` before a seventeenth arm, if there is one; our profile has at most 16.
pub fn seventeenth_arm(alloc: Global, tokens: &[Token]) -> Result<Option<Span>, AllocError>
    ensures some { IfOk result (λ o. IfSome o (IsSeventeenth tokens.now)) }
    ensures none { IfOk result (λ o. IfNone o (is_narrow [] tokens.now ≡ true)) }
{
    let mut open: Vec<u32> = Vec::new(alloc);
    for token in tokens {
        let full = count(&mut open, &token.kind)?;
        if full {
            return Ok(Some(token.at));
        }
    }
    Ok(None)
}
