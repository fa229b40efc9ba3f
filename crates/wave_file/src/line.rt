//! What the first line of a text says.

ghost use Rattle.std.specs.Prelude.{◌≡◌, ◌≢◌, ◌==◌, position, ◌<◌, ◌^◌, ◌∷◌, ◌++◌, ℕ, List, Bool, true, [], bytes_eq, decimal, IfOk, IfSome, IfNone};
ghost use Rattle.std.specs.Str.Parse.{digits_value};
ghost use Rattle.chp_base.specs.Names.{IsNodeName, digit};
ghost use Rattle.wave_file.specs.Waves.{naming, var_spelling, value_spelling_of, id_of, time_mark};
ghost use Rattle.wave_file.specs.WaveLines.{is_id, is_free_of, GoesOnWithChange};

use crate::forms::value_line;
use crate::id::{id_text, is_id};
use chp_base::{Name, node_name_of};
use itoa::Buffer;
use std::alloc::{AllocError, Global};

/// What follows the prefix, or None where the text does not begin with it.
pub fn behind<'a>(text: &'a [u8], front: &[u8]) -> Option<&'a [u8]>
    ensures some { IfSome result (λ rest. text.now ≡ front.now ++ rest.now) }
    ensures none { IfNone result ((rest : List ℕ) → text.now ≢ front.now ++ rest) }
{
    text.strip_prefix(front)
}

/// The index of the first such byte, or None where there is none.
fn place_of(text: &[u8], end: u8) -> Option<usize>
    ensures { result ≡ position (λ b. b == end) text.now }
{
    text.iter().position(|byte| *byte == end)
}

/// What comes before the first such byte and what comes after it, or None where there is none.
fn cut(text: &[u8], end: u8) -> Option<(&[u8], &[u8])>
    ensures some { IfSome result (λ r. text.now ≡ r.0.now ++ end ∷ r.1.now) }
    ensures free { IfSome result (λ r. is_free_of end r.0.now ≡ true) }
    ensures none { IfNone result ((front rest : List ℕ) → text.now ≢ front ++ end ∷ rest) }
{
    let at = place_of(text, end)?;
    Some((&text[..at], &text[at + 1..]))
}

/// The name that the first line gives to the node of the identifier, and what follows the line, or None where
/// it gives none.
fn naming_in<'a>(id: &[u8], text: &'a [u8]) -> Option<(&'a [u8], &'a [u8])>
    ensures some { IfSome result (λ r. text.now ≡ naming id.now r.0.now ++ r.1.now) }
    ensures free { IfSome result (λ r. is_free_of 32 r.0.now ≡ true) }
    ensures none { IfNone result ((name rest : List ℕ) → is_free_of 32 name ≡ true →
        text.now ≢ naming id.now name ++ rest) }
{
    let text = behind(text, b"$var wire 1 ")?;
    let text = behind(text, id)?;
    let text = behind(text, b" ")?;
    let (name, text) = cut(text, b' ')?;
    let text = behind(text, b"$end\n")?;
    Some((name, text))
}

/// The name that the first line gives to the node, and what follows the line, or None where it gives none.
pub fn named_in(alloc: Global, node: u32, text: &[u8]) -> Result<Option<(Name, &[u8])>, AllocError>
    requires { node < 830584 }
    ensures some { IfOk result (λ o. IfSome o (λ r. text.now ≡ var_spelling node r.0 ++ r.1.now)) }
    ensures name { IfOk result (λ o. IfSome o (λ r. IsNodeName r.0)) }
    ensures none { IfOk result (λ o. IfNone o ((name rest : List ℕ) → IsNodeName name →
        text.now ≢ var_spelling node name ++ rest)) }
{
    let mut id = Vec::new(alloc);
    id_text(node, &mut id)?;
    let Some((name, rest)) = naming_in(&id, text) else {
        return Ok(None);
    };
    match node_name_of(alloc, name)? {
        Some(name) => Ok(Some((name, rest))),
        None => Ok(None),
    }
}

/// What follows the line in which the node takes the value, or None where the first line is another one.
fn behind_value(
    alloc: Global,
    value: bool,
    node: u32,
    text: &[u8],
) -> Result<Option<&[u8]>, AllocError>
    requires { node < 830584 }
    ensures some { IfOk result
        (λ o. IfSome o (λ rest. text.now ≡ value_spelling_of value (id_of node) ++ rest.now)) }
    ensures none { IfOk result
        (λ o. IfNone o ((rest : List ℕ) → text.now ≢ value_spelling_of value (id_of node) ++ rest)) }
{
    let mut line = Vec::new(alloc);
    value_line(value, node, &mut line)?;
    Ok(behind(text, &line))
}

/// The value that the node takes in the first line, and what follows the line, or None where it takes none.
pub fn valued_in(alloc: Global, node: u32, text: &[u8]) -> Result<Option<(bool, &[u8])>, AllocError>
    requires { node < 830584 }
    ensures some { IfOk result
        (λ o. IfSome o (λ r. text.now ≡ value_spelling_of r.0 (id_of node) ++ r.1.now)) }
    ensures none { IfOk result
        (λ o. IfNone o ((value : Bool) (rest : List ℕ) → text.now ≢ value_spelling_of value (id_of node) ++ rest)) }
{
    if let Some(rest) = behind_value(alloc, false, node, text)? {
        return Ok(Some((false, rest)));
    }
    match behind_value(alloc, true, node, text)? {
        Some(rest) => Ok(Some((true, rest))),
        None => Ok(None),
    }
}

/// The identifier at the start of the text up to the end of the line, and what follows the line, or None where
/// there is none.
fn id_in(text: &[u8]) -> Option<(&[u8], &[u8])>
    ensures some { IfSome result (λ r. text.now ≡ (r.0.now ++ 10 ∷ []) ++ r.1.now) }
    ensures id { IfSome result (λ r. is_id r.0.now ≡ true) }
    ensures none { IfNone result ((id rest : List ℕ) → is_id id ≡ true → text.now ≢ (id ++ 10 ∷ []) ++ rest) }
{
    let (id, rest) = cut(text, b'\n')?;
    if is_id(id) { Some((id, rest)) } else { None }
}

/// The value and the identifier of a change in the first line, and what follows the line, or None where it is not a
/// change.
pub fn turned_in(text: &[u8]) -> Option<(bool, &[u8], &[u8])>
    ensures some { IfSome result (λ r. text.now ≡ value_spelling_of r.0 r.1.now ++ r.2.now) }
    ensures id { IfSome result (λ r. is_id r.1.now ≡ true) }
    ensures none { IfNone result ((value : Bool) (id rest : List ℕ) → is_id id ≡ true →
        text.now ≢ value_spelling_of value id ++ rest) }
{
    let (value, text) = match text {
        [b'0', text @ ..] => (false, text),
        [b'1', text @ ..] => (true, text),
        _ => return None,
    };
    let (id, rest) = id_in(text)?;
    Some((value, id, rest))
}

/// Whether the text goes on with a change.
fn goes_on_with_change(text: &[u8]) -> bool
    ensures yes { result ≡ true → GoesOnWithChange text.now }
    ensures no { GoesOnWithChange text.now → result ≡ true }
{
    turned_in(text).is_some()
}

fn is_digit(byte: u8) -> bool
    ensures { result ≡ digit byte }
{
    matches!(byte, b'0'..=b'9')
}

/// The number that the digits write, or None where they write no number below 2^64.
fn number_in(digits: &[u8]) -> Option<u64>
    ensures some { IfSome result (λ n. n ≡ digits_value 10 digits.now) }
    ensures none { IfNone result ((n : ℕ) → n < 2 ^ 64 → digits.now ≢ decimal n) }
{
    let mut number = 0u64;
    for byte in digits {
        if !is_digit(*byte) {
            return None;
        }
        let shifted = number.checked_mul(10)?;
        number = shifted.checked_add(u64::from(*byte - b'0'))?;
    }
    Some(number)
}

/// Whether this is the decimal spelling of the number.
fn is_decimal(digits: &[u8], number: u64) -> bool
    ensures { result ≡ bytes_eq digits.now (decimal number) }
{
    let mut buffer = Buffer::new();
    digits == buffer.format(number).as_bytes()
}

/// Parses a canonical decimal number below 2^64, or returns None.
fn decimal_in(digits: &[u8]) -> Option<u64>
    ensures some { IfSome result (λ n. digits.now ≡ decimal n) }
    ensures none { IfNone result ((n : ℕ) → n < 2 ^ 64 → digits.now ≢ decimal n) }
{
    let number = number_in(digits)?;
    if is_decimal(digits, number) {
        Some(number)
    } else {
        None
    }
}

/// The time of a mark in the first line, and what follows the line, or None where it is not a mark.
fn timed_in(text: &[u8]) -> Option<(u64, &[u8])>
    ensures some { IfSome result (λ r. text.now ≡ time_mark r.0 ++ r.1.now) }
    ensures small { IfSome result (λ r. r.0 < 2 ^ 64) }
    ensures none { IfNone result ((time : ℕ) (rest : List ℕ) → time < 2 ^ 64 → text.now ≢ time_mark time ++ rest) }
{
    let text = behind(text, b"#")?;
    let (digits, rest) = cut(text, b'\n')?;
    let time = decimal_in(digits)?;
    Some((time, rest))
}

/// The time of a mark in the first line that is followed by a change, and what follows the line, or None where
/// it is not such a mark.
pub fn mark_in(text: &[u8]) -> Option<(u64, &[u8])>
    ensures some { IfSome result (λ r. text.now ≡ time_mark r.0 ++ r.1.now) }
    ensures small { IfSome result (λ r. r.0 < 2 ^ 64) }
    ensures change { IfSome result (λ r. GoesOnWithChange r.1.now) }
    ensures none { IfNone result ((time : ℕ) (rest : List ℕ) → time < 2 ^ 64 → GoesOnWithChange rest →
        text.now ≢ time_mark time ++ rest) }
{
    let (time, rest) = timed_in(text)?;
    if goes_on_with_change(rest) {
        Some((time, rest))
    } else {
        None
    }
}
