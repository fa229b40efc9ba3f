//! How a file begins.

ghost use Rattle.std.specs.Prelude.{◌≡◌, ◌≢◌, ◌≤◌, ◌<◌, ◌+◌, ◌^◌, ◌++◌, ◌⊎◌, ℕ, List, Bool, true, false, [], length, codes, All, IfOk, IfErr, IfSome, IfNone};
ghost use Rattle.std.specs.List.{list_all};
ghost use Rattle.std.specs.Str.Parse.{digits_value};
ghost use Rattle.chp_base.specs.Names.{digit};
ghost use Rattle.prs_file.specs.Openings.{opening, OfRefusal};
ghost use Rattle.prs_file.specs.Reading.{IsBadVersion, IsTaken, IsRefused, RefusedBehind};

use crate::fault::{NetFault, NetReadError};
use crate::form::head_form;
use crate::spelled::{cut_line, is_spelled};

/// What follows the word that begins a file, or None if the line doesn't begin with it.
fn behind_prs(line: &[u8]) -> Option<&[u8]>
    ensures some { IfSome result (λ text. line.now ≡ codes "prs " ++ text.now) }
    ensures none { IfNone result ((text : List ℕ) → line.now ≢ codes "prs " ++ text) }
{
    match line {
        [b'p', b'r', b's', b' ', rest @ ..] => Some(rest),
        _ => None,
    }
}

/// The text without the end of the line, if it has one.
fn bare(text: &[u8]) -> &[u8]
    ensures two { (result.now ≡ text.now) ⊎ (text.now ≡ result.now ++ codes "\n") }
    ensures ended { (t : List ℕ) → text.now ≡ t ++ codes "\n" → result.now ≡ t }
{
    match text {
        [rest @ .., b'\n'] => rest,
        _ => text,
    }
}

fn is_digit(byte: u8) -> bool
    ensures { result ≡ digit byte }
{
    matches!(byte, b'0'..=b'9')
}

fn are_digits(text: &[u8]) -> bool
    ensures { result ≡ list_all digit text.now }
{
    text.iter().all(|byte| is_digit(*byte))
}

/// The number that these digits spell.
fn value(digits: &[u8]) -> u32
    requires digits { All (λ b. digit b ≡ true) digits.now }
    requires most { length digits.now ≤ 9 }
    ensures { result ≡ digits_value 10 digits.now }
{
    let mut number = 0u32;
    for byte in digits {
        number = number * 10 + u32::from(*byte - b'0');
    }
    number
}

/// Whether the line is the word that begins a file and a number of 1 to 9 digits that is no known version, ended
/// or not.
fn is_bad_version(line: &[u8]) -> bool
    ensures yes { result ≡ true → (digits : List ℕ) × IsBadVersion line.now digits }
    ensures no { result ≡ false → (digits : List ℕ) → ¬ IsBadVersion line.now digits }
{
    let Some(text) = behind_prs(line) else {
        return false;
    };
    let digits = bare(text);
    if digits.is_empty() || digits.len() > 9 || !are_digits(digits) {
        return false;
    }
    let number = value(digits);
    number != 1 && number != 2
}

/// Why a file is refused whose first line isn't that of a known version.
fn first_fault(line: &[u8]) -> NetFault
    ensures bad { result ≡ NetFault.BadVersion → (digits : List ℕ) × IsBadVersion line.now digits }
    ensures known { result ≡ NetFault.BadLine → (digits : List ℕ) → ¬ IsBadVersion line.now digits }
    ensures two { (result ≡ NetFault.BadVersion) ⊎ (result ≡ NetFault.BadLine) }
{
    if is_bad_version(line) {
        NetFault::BadVersion
    } else {
        NetFault::BadLine
    }
}

/// The version of the file, and the text after its first three lines.
pub fn read_opening(text: &[u8]) -> Result<(u8, &[u8]), NetReadError>
    ensures taken { IfOk result (λ form. IsTaken text.now (opening form.0) form.1.now) }
    ensures known { IfOk result (λ form. (1 ≤ form.0) × (form.0 ≤ 2)) }
    ensures refused { IfErr result (OfRefusal (λ fault line. IsRefused text.now fault line)) }
{
    let (line, rest) = cut_line(text);
    let Some(version) = head_form(line) else {
        let fault = first_fault(line);
        return Err(NetReadError::Refused { fault, line: 1 });
    };
    let (go, behind_go) = cut_line(rest);
    if !is_spelled(go, &[b"node go 0\n"]) {
        let fault = NetFault::BadLine;
        return Err(NetReadError::Refused { fault, line: 2 });
    }
    let (done, behind_done) = cut_line(behind_go);
    if !is_spelled(done, &[b"node done 0\n"]) {
        let fault = NetFault::BadLine;
        return Err(NetReadError::Refused { fault, line: 3 });
    }
    Ok((version, behind_done))
}
