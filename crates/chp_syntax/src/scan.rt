//! Reading a text token by token.

ghost use Rattle.std.specs.Prelude.{◌≡◌, ◌≢◌, ℕ, ◌≤◌, ◌<◌, ◌⊎◌, ◌^◌, ◌==◌, ◌+◌, List, [], ◌∷◌, length, true, IfOk, IfErr, IfSome, IfNone};
ghost use Rattle.std.specs.List.{list_all, prefix_len, position_or_len};
ghost use Rattle.chp_base.specs.Names.{word_part, digit};
ghost use Rattle.chp_base.specs.declared.span.Span.{Span};
ghost use Rattle.chp_syntax.specs.declared.token.Key.{Key};
ghost use Rattle.chp_syntax.specs.declared.token.Mark.{Mark};
ghost use Rattle.chp_syntax.specs.declared.token.TokenKind.{TokenKind};
ghost use Rattle.chp_syntax.specs.declared.token.Token.{Token};
ghost use Rattle.chp_syntax.specs.Spelling.{Spells, IsDecimal, IsHexadecimal, key_text, sign_text, hex_digit, digit_value, number_in};
ghost use Rattle.chp_syntax.specs.Tokens.{IsWordRun, IsGap, InOrder, IfRefused, Tokens, BadToken};
ghost use Rattle.chp_syntax.specs.Front.{IsFront, HasSign, LongestSign};

use crate::token::{Key, Mark, Token, TokenKind};
use chp_base::{Fault, FaultCode, Span, TextError, name_of};
use std::alloc::{AllocError, Global};

const MOST_HEX_DIGITS: usize = 16;

/// What a text begins with, and its length in bytes.
#[derive(Drop)]
enum Front {
    /// A blank, or a comment.
    Gap(usize),
    /// A token.
    Piece(TokenKind, usize),
    /// Bytes that are no token.
    Bad(usize),
}

fn is_word_part(byte: u8) -> bool
    ensures { result ≡ word_part byte }
{
    matches!(byte, b'a'..=b'z' | b'A'..=b'Z' | b'0'..=b'9' | b'_')
}

fn is_digit(byte: u8) -> bool
    ensures { result ≡ digit byte }
{
    matches!(byte, b'0'..=b'9')
}

fn is_hex_digit(byte: u8) -> bool
    ensures { result ≡ hex_digit byte }
{
    matches!(byte, b'0'..=b'9' | b'a'..=b'f' | b'A'..=b'F')
}

/// How many letters, digits and underscores the text begins with.
fn run_length(text: &[u8]) -> usize
    ensures { result ≡ prefix_len word_part text.now }
{
    text.iter().take_while(|byte| is_word_part(**byte)).count()
}

/// The number of bytes before the next LF, or before the end if there is none.
fn line_length(text: &[u8]) -> usize
    ensures { result ≡ position_or_len (λ b. b == 10) text.now }
{
    text.iter().take_while(|byte| **byte != b'\n').count()
}

fn are_digits(text: &[u8]) -> bool
    ensures { result ≡ list_all digit text.now }
{
    text.iter().all(|byte| is_digit(*byte))
}

fn are_hex_digits(text: &[u8]) -> bool
    ensures { result ≡ list_all hex_digit text.now }
{
    text.iter().all(|byte| is_hex_digit(*byte))
}

fn value_of_digit(byte: u8) -> u8
    requires { hex_digit byte ≡ true }
    ensures { result ≡ digit_value byte }
{
    match byte {
        b'0'..=b'9' => byte - b'0',
        b'a'..=b'f' => byte - b'a' + 10,
        _ => byte - b'A' + 10,
    }
}

/// The length of the blank or the comment that the text begins with, if it begins with one.
fn gap(text: &[u8]) -> Option<usize>
    ensures some { IfSome result (λ n. IsGap n text.now) }
    ensures none { IfNone result ((n : ℕ) → ¬ IsGap n text.now) }
{
    match text {
        [b' ' | b'\t' | b'\r' | b'\n', ..] => Some(1),
        [b'/', b'/', behind @ ..] => Some(2 + line_length(behind)),
        _ => None,
    }
}

/// The longest sign that the text begins with, and its length, if it begins with one.
fn sign(text: &[u8]) -> Option<(Mark, usize)>
    ensures mark { IfSome result (λ s. LongestSign text.now s.0) }
    ensures size { IfSome result (λ s. s.1 ≡ length (sign_text s.0)) }
    ensures none { IfNone result ((m : Mark) → ¬ HasSign text.now m) }
{
    match text {
        [] => None,
        [only] => short_sign(*only).map(|mark| (mark, 1)),
        [first, second, ..] => {
            if let Some(mark) = long_sign(*first, *second) {
                return Some((mark, 2));
            }
            let mark = short_sign(*first)?;
            Some((mark, 1))
        }
    }
}

/// The sign of these two bytes.
fn long_sign(first: u8, second: u8) -> Option<Mark>
    ensures some { IfSome result (λ m. first ∷ second ∷ [] ≡ sign_text m) }
    ensures none { IfNone result ((m : Mark) → first ∷ second ∷ [] ≢ sign_text m) }
{
    match (first, second) {
        (b'|', b'|') => Some(Mark::BarBar),
        (b'[', b']') => Some(Mark::Choice),
        (b'[', b'|') => Some(Mark::BracketBar),
        (b':', b'=') => Some(Mark::Becomes),
        (b'-', b'>') => Some(Mark::Arrow),
        (b'!', b'=') => Some(Mark::NotEqual),
        (b'<', b'=') => Some(Mark::AtMost),
        (b'>', b'=') => Some(Mark::AtLeast),
        _ => None,
    }
}

/// The sign of this one byte.
fn short_sign(byte: u8) -> Option<Mark>
    ensures some { IfSome result (λ m. byte ∷ [] ≡ sign_text m) }
    ensures none { IfNone result ((m : Mark) → byte ∷ [] ≢ sign_text m) }
{
    match byte {
        b';' => Some(Mark::Semicolon),
        b',' => Some(Mark::Comma),
        b':' => Some(Mark::Colon),
        b'!' => Some(Mark::Bang),
        b'?' => Some(Mark::Question),
        b'(' => Some(Mark::OpenRound),
        b')' => Some(Mark::CloseRound),
        b'[' => Some(Mark::OpenSquare),
        b']' => Some(Mark::CloseSquare),
        b'{' => Some(Mark::OpenCurly),
        b'}' => Some(Mark::CloseCurly),
        b'*' => Some(Mark::Star),
        b'#' => Some(Mark::Hash),
        b'~' => Some(Mark::Tilde),
        b'&' => Some(Mark::Amp),
        b'|' => Some(Mark::Bar),
        b'^' => Some(Mark::Caret),
        b'+' => Some(Mark::Plus),
        b'-' => Some(Mark::Minus),
        b'=' => Some(Mark::Equal),
        b'<' => Some(Mark::Less),
        b'>' => Some(Mark::Greater),
        _ => None,
    }
}

/// The keyword of these bytes.
fn keyword(run: &[u8]) -> Option<Key>
    ensures some { IfSome result (λ k. run.now ≡ key_text k) }
    ensures none { IfNone result ((k : Key) → run.now ≢ key_text k) }
{
    match run {
        b"in" => Some(Key::In),
        b"out" => Some(Key::Out),
        b"chan" => Some(Key::Chan),
        b"var" => Some(Key::Var),
        b"begin" => Some(Key::Begin),
        b"end" => Some(Key::End),
        b"skip" => Some(Key::Skip),
        b"proc" => Some(Key::Proc),
        b"call" => Some(Key::Call),
        _ => None,
    }
}

/// The value of the digits in this base, if it fits in 64 bits.
fn value_of(base: u64, digits: &[u8]) -> Option<u64>
    requires base { 1 ≤ base }
    requires digits { list_all hex_digit digits.now ≡ true }
    ensures some { IfSome result (λ n. n ≡ number_in base digits.now) }
    ensures none { IfNone result (2 ^ 64 ≤ number_in base digits.now) }
{
    let mut value: u64 = 0;
    for digit in digits {
        let shifted = base.checked_mul(value)?;
        value = shifted.checked_add(u64::from(value_of_digit(*digit)))?;
    }
    Some(value)
}

/// The number that the run spells.
fn number(run: &[u8]) -> Option<u64>
    ensures some { IfSome result (λ n. IsDecimal n run.now ⊎ IsHexadecimal n run.now) }
    ensures none { IfNone result ((n : ℕ) → ¬ (IsDecimal n run.now ⊎ IsHexadecimal n run.now)) }
{
    match run {
        [b'0', b'x', tail @ ..] => {
            if tail.is_empty() || tail.len() > MOST_HEX_DIGITS || !are_hex_digits(tail) {
                return None;
            }
            value_of(16, tail)
        }
        _ => {
            if run.is_empty() || !are_digits(run) {
                return None;
            }
            value_of(10, run)
        }
    }
}

/// What the run spells.
fn word(alloc: Global, run: &[u8]) -> Result<Option<TokenKind>, AllocError>
    requires { IsWordRun run.now }
    ensures some { IfOk result (λ o. IfSome o (λ kind. Spells kind run.now)) }
    ensures none { IfOk result (λ o. IfNone o ((kind : TokenKind) → ¬ Spells kind run.now)) }
{
    if let Some(key) = keyword(run) {
        return Ok(Some(TokenKind::Word(key)));
    }
    if let Some(name) = name_of(alloc, run)? {
        return Ok(Some(TokenKind::Ident(name)));
    }
    Ok(number(run).map(TokenKind::Number))
}

/// What the text begins with.
fn next(alloc: Global, text: &[u8]) -> Result<Front, AllocError>
    requires { 0 < length text.now }
    ensures { IfOk result (IsFront text.now) }
{
    if let Some(length) = gap(text) {
        return Ok(Front::Gap(length));
    }
    let length = run_length(text);
    if length > 0 {
        return Ok(match word(alloc, &text[..length])? {
            Some(kind) => Front::Piece(kind, length),
            None => Front::Bad(length),
        });
    }
    Ok(match sign(text) {
        Some((mark, length)) => Front::Piece(TokenKind::Sign(mark), length),
        None => Front::Bad(1),
    })
}

fn span(from: usize, length: usize) -> Span
    requires { from + length < 2 ^ 32 }
    ensures { result ≡ record { from = from; to = from + length } }
{
    Span {
        from: from as u32,
        to: (from + length) as u32,
    }
}

fn bad_token(at: Span) -> TextError
    ensures { result ≡ TextError.Refused (record { code = FaultCode.BadToken; at = at; other = at }) }
{
    TextError::Refused(Fault {
        code: FaultCode::BadToken,
        at,
        other: at,
    })
}

/// The tokens of a text of at most 262,144 bytes, with their spans. A text is refused as BadToken exactly if
/// some of its bytes begin no token; the fault's span is the first such one. Spaces, tabs, CR and LF
/// separate tokens, and so does a comment, which runs from `//` to the next LF or to the end. A longest run of
/// letters, digits and `_` is a keyword, a name of at most 24 characters, a decimal number of at most 2^64 - 1, or
/// `0x` with 1 to 16 hexadecimal digits; any other run is a fault as a whole. Of the signs the longest that fits is
/// taken, and any other byte is a fault of that one byte. (Our profile.)
pub fn tokens(alloc: Global, text: &[u8]) -> Result<Vec<Token>, TextError>
    requires { length text.now ≤ 262144 }
    ensures read { IfOk result (λ ts. Tokens text.now ts.items) }
    ensures only { IfOk result (λ ts. (us : List Token) → Tokens text.now us → us ≡ ts.items) }
    ensures within { IfOk result (λ ts. InOrder 0 ts.items (length text.now)) }
    ensures code { IfErr result (IfRefused (λ f. f.code ≡ FaultCode.BadToken)) }
    ensures other { IfErr result (IfRefused (λ f. f.other ≡ f.at)) }
    ensures place { IfErr result (IfRefused (λ f. BadToken text.now f.at)) }
    ensures first { IfErr result (IfRefused (λ f. (s : Span) → BadToken text.now s → s ≡ f.at)) }
    ensures refused { IfErr result (IfRefused (λ f. (ts : List Token) → ¬ Tokens text.now ts)) }
{
    let mut tokens = Vec::new(alloc);
    let mut at = 0;
    while at < text.len() {
        match next(alloc, &text[at..])? {
            Front::Gap(length) => at += length,
            Front::Piece(kind, length) => {
                tokens.push(Token {
                    kind,
                    at: span(at, length),
                })?;
                at += length;
            }
            Front::Bad(length) => return Err(bad_token(span(at, length))),
        }
    }
    Ok(tokens)
}
