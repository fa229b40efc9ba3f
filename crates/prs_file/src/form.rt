//! What a line of a rule file says.

ghost use Rattle.std.specs.Prelude.{◌≡◌, ◌≢◌, ◌≤◌, ℕ, List, Bool, IfOk, IfSome, IfNone};
ghost use Rattle.chp_base.specs.Names.{IsNodeName};
ghost use Rattle.prs_file.specs.Spelling.{head_spelling, node_spelling};

use crate::spelled::is_spelled;
use chp_base::{Name, node_name_of};
use std::alloc::{AllocError, Global};

/// The name and the first value in a node's line, or None where the line is none.
pub fn node_form(alloc: Global, line: &[u8]) -> Result<Option<(Name, bool)>, AllocError>
    ensures some { IfOk result (λ o. IfSome o (λ form. line.now ≡ node_spelling form.0 form.1)) }
    ensures name { IfOk result (λ o. IfSome o (λ form. IsNodeName form.0)) }
    ensures none { IfOk result
        (λ o. IfNone o ((name : List ℕ) (first : Bool) → IsNodeName name → line.now ≢ node_spelling name first)) }
{
    if line.len() < 8 {
        return Ok(None);
    }
    let text = &line[5..line.len() - 3];
    let is_high = is_spelled(line, &[b"node ", text, b" 1\n"]);
    if !is_high && !is_spelled(line, &[b"node ", text, b" 0\n"]) {
        return Ok(None);
    }
    let Some(name) = node_name_of(alloc, text)? else {
        return Ok(None);
    };
    Ok(Some((name, is_high)))
}

/// The version in a file's first line, or None where the line isn't that of a known version.
pub fn head_form(line: &[u8]) -> Option<u8>
    ensures some { IfSome result (λ version. line.now ≡ head_spelling version) }
    ensures known { IfSome result (λ version. (1 ≤ version) × (version ≤ 2)) }
    ensures none { IfNone result ((version : ℕ) → 1 ≤ version → version ≤ 2 → line.now ≢ head_spelling version) }
{
    if is_spelled(line, &[b"prs 1\n"]) {
        Some(1)
    } else if is_spelled(line, &[b"prs 2\n"]) {
        Some(2)
    } else {
        None
    }
}
