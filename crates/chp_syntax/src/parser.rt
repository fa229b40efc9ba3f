//! The parser, from the list of tokens to the tree.

ghost use Rattle.std.specs.Prelude.{◌≡◌, ℕ, ◌≤◌, ◌^◌, ◌<◌, List, [], length, drop, true, OnOk, IfOk, IfErr, IfSome, IfNone};
ghost use Rattle.std.specs.List.{list_all};
ghost use Rattle.chp_base.specs.declared.fault.TextError.TheVariants.{Refused};
ghost use Rattle.chp_syntax.specs.Trees.{ProgramTree, Procedure};
ghost use Rattle.chp_syntax.specs.Grammar.{Derives};
ghost use Rattle.chp_syntax.specs.Reading.{FirstFault, IsShallow, Reads, few_arms};
ghost use Rattle.chp_syntax.specs.Tokens.{IfRefused};
ghost use Rattle.chp_syntax.specs.View.{program_tree};
ghost use Rattle.chp_syntax.specs.Seventeenth.{is_narrow};
ghost use Rattle.chp_syntax.specs.Shape.{IsShaped};
ghost use Rattle.chp_syntax.specs.Refusals.{IsSpoken, WhenSyntax, WhenUnread, spot, RefusedTokens, RefusedText};

mod arms;
mod expression;
mod program;
mod sight;
mod statement;

use crate::limits::{arbiter, probe, too_deep};
use crate::scan::tokens as scan;
use crate::token::Token;
use crate::tree::Program;
use arms::seventeenth_arm;
use chp_base::{Fault, FaultCode, Span, TextError};
use program::program as read_program;
use sight::Stop;
use std::alloc::{AllocError, Global};

/// Why some tokens do not parse: a syntax error at the token with this index, or, if they stop too early, at their
/// number; or out of memory.
#[derive(Drop)]
pub enum Unread {
    Syntax(usize),
    NoMemory(AllocError),
}

/// Parses the tokens as a program, or reports the index of the first token at which no program can continue.
pub fn parse_tokens(alloc: Global, tokens: &[Token]) -> Result<Program, Unread>
    ensures reads { IfOk result (λ p. Derives tokens.now (program_tree p)) }
    ensures only { IfOk result (λ p. (q : ProgramTree) → Derives tokens.now q → q ≡ program_tree p) }
    ensures fault { IfErr result (λ e. WhenSyntax e (FirstFault tokens.now)) }
    ensures none { IfErr result (λ e. WhenUnread e ((q : ProgramTree) → ¬ Derives tokens.now q)) }
{
    let mut at = 0;
    match read_program(alloc, tokens, &mut at) {
        Ok(program) => Ok(program),
        Err(Stop::Fault) => Err(Unread::Syntax(at)),
        Err(Stop::NoMemory(e)) => Err(Unread::NoMemory(e)),
    }
}

fn refusal(code: FaultCode, at: Span) -> TextError
    ensures { result ≡ Refused (record { code = code; at = at; other = at }) }
{
    TextError::Refused(Fault {
        code,
        at,
        other: at,
    })
}

fn front_spot(tokens: &[Token], end: u32) -> Span
    ensures { result ≡ spot tokens.now end }
{
    match tokens {
        [] => Span { from: end, to: end },
        [first, ..] => first.at,
    }
}

fn spot_at(tokens: &[Token], at: usize, end: u32) -> Span
    requires { at ≤ length tokens.now }
    ensures { result ≡ spot (drop at tokens.now) end }
{
    front_spot(&tokens[at..], end)
}

/// The first token for which tokens are refused whatever they parse as, and why: a probe, an arbiter, or too deep a
/// bracket.
fn barred(tokens: &[Token]) -> Option<(FaultCode, Span)>
    ensures some { IfSome result (λ r. (end : ℕ) → RefusedTokens tokens.now end r.0 r.1) }
    ensures spoken { IfNone result (IsSpoken tokens.now) }
    ensures shallow { IfNone result (IsShallow tokens.now) }
{
    if let Some(at) = probe(tokens) {
        return Some((FaultCode::Probe, at));
    }
    if let Some(at) = arbiter(tokens) {
        return Some((FaultCode::Arbiter, at));
    }
    match too_deep(tokens) {
        Some(at) => Some((FaultCode::TooDeep, at)),
        None => None,
    }
}

/// Parses the tokens, none of which is barred, of a text that ends at byte `end`.
fn parse_spoken(alloc: Global, tokens: &[Token], end: u32) -> Result<Program, TextError>
    requires spoken { IsSpoken tokens.now }
    requires shallow { IsShallow tokens.now }
    ensures derives { IfOk result (λ p. Derives tokens.now (program_tree p)) }
    ensures only { IfOk result (λ p. (q : ProgramTree) → Derives tokens.now q → q ≡ program_tree p) }
    ensures other { IfErr result (IfRefused (λ f. f.other ≡ f.at)) }
    ensures place { IfErr result (IfRefused (λ f. RefusedTokens tokens.now end f.code f.at)) }
{
    match parse_tokens(alloc, tokens) {
        Ok(program) => Ok(program),
        Err(Unread::Syntax(first)) => Err(refusal(FaultCode::Syntax, spot_at(tokens, first, end))),
        Err(Unread::NoMemory(e)) => Err(TextError::NoMemory(e)),
    }
}

/// Refuses tokens in which a selection or a guarded repetition has more than sixteen arms.
fn refuse_arms(alloc: Global, tokens: &[Token]) -> Result<(), TextError>
    ensures narrow { OnOk result (is_narrow [] tokens.now ≡ true) }
    ensures other { IfErr result (IfRefused (λ f. f.other ≡ f.at)) }
    ensures place { IfErr result (IfRefused (λ f. (p : ProgramTree) (end : ℕ) → IsSpoken tokens.now →
        IsShallow tokens.now → Derives tokens.now p → RefusedTokens tokens.now end f.code f.at)) }
{
    match seventeenth_arm(alloc, tokens)? {
        None => Ok(()),
        Some(at) => Err(refusal(FaultCode::TooManyGuards, at)),
    }
}

/// Parses the tokens of a text that ends at byte `end`.
fn parse_list(alloc: Global, tokens: &[Token], end: u32) -> Result<Program, TextError>
    ensures derives { IfOk result (λ p. Derives tokens.now (program_tree p)) }
    ensures only { IfOk result (λ p. (q : ProgramTree) → Derives tokens.now q → q ≡ program_tree p) }
    ensures shallow { IfOk result (λ p. IsShallow tokens.now) }
    ensures few_in_procs { IfOk result (λ p. list_all (λ (q : Procedure). few_arms q.body) (program_tree p).procs ≡
        true) }
    ensures few_in_body { IfOk result (λ p. few_arms (program_tree p).body ≡ true) }
    ensures other { IfErr result (IfRefused (λ f. f.other ≡ f.at)) }
    ensures place { IfErr result (IfRefused (λ f. RefusedTokens tokens.now end f.code f.at)) }
{
    if let Some((code, at)) = barred(tokens) {
        return Err(refusal(code, at));
    }
    let program = parse_spoken(alloc, tokens, end)?;
    refuse_arms(alloc, tokens).and(Ok(program))
}

/// Parses a text of at most 262,144 bytes as a program. The result has the shape of the grammar, and what it declares
/// has names.
///
/// A text is refused at its first bytes that are no token (10), else at the first `#` (13), at the first `[|` (14), at
/// the first token after which more than 256 brackets are open (12), at the first token at which no program can
/// continue, or at the text's end if it stops too early (11), and at the first `[]` before a seventeenth arm (15). The
/// causes are tested in this order. The order and all of the syntax are our profile's.
pub fn parse(alloc: Global, text: &[u8]) -> Result<Program, TextError>
    requires { length text.now ≤ 262144 }
    ensures reads { IfOk result (λ p. Reads text.now (program_tree p)) }
    ensures only { IfOk result (λ p. (q : ProgramTree) → Reads text.now q → q ≡ program_tree p) }
    ensures shaped { IfOk result (λ p. IsShaped (program_tree p)) }
    ensures other { IfErr result (IfRefused (λ f. f.other ≡ f.at)) }
    ensures place { IfErr result (IfRefused (λ f. RefusedText text.now f.code f.at)) }
    ensures refused { IfErr result (IfRefused (λ f. (q : ProgramTree) → ¬ Reads text.now q)) }
{
    let tokens = match scan(alloc, text) {
        Ok(tokens) => tokens,
        Err(e) => return Err(e),
    };
    let end = text.len() as u32;
    match parse_list(alloc, &tokens, end) {
        Ok(program) => Ok(program),
        Err(e) => Err(e),
    }
}
