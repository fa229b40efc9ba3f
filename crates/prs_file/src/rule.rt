//! The lines of rules, piece by piece.

ghost use Rattle.std.specs.Prelude.{◌≡◌, ◌≢◌, ◌++◌, ℕ, List, Bool, codes, IfOk, IfSome, IfNone};
ghost use Rattle.chp_base.specs.Names.{IsNodeName};
ghost use Rattle.prs_file.specs.declared.forms.Lead.{Lead as LeadValue};
ghost use Rattle.prs_file.specs.declared.rule.Led.{Led as LedValue};
ghost use Rattle.prs_file.specs.Spelling.{end_spelling, lead_spelling, sign_spelling};
ghost use Rattle.prs_file.specs.RuleForms.{IsRuleForm, rule_line_of, tells_high, unsigned, word_in, behind_word};

use crate::channel::word_len;
use crate::forms::Lead;
use crate::spelled::is_spelled;
use crate::word::{Word, node_word};
use std::alloc::{AllocError, Global};

/// The name and the direction in the end of a rule's line, or None if the text is no such end.
pub fn end_form(text: &[u8]) -> Option<(Word, bool)>
    ensures some { IfSome result (λ form. text.now ≡ end_spelling form.0 form.1) }
    ensures name { IfSome result (λ form. IsNodeName form.0) }
    ensures none { IfNone result
        ((name : List ℕ) (up : Bool) → IsNodeName name → text.now ≢ end_spelling name up) }
{
    if text.len() < 6 {
        return None;
    }
    let word = &text[4..text.len() - 2];
    let up = is_spelled(text, &[b" -> ", word, b"+\n"]);
    if !up && !is_spelled(text, &[b" -> ", word, b"-\n"]) {
        return None;
    }
    let Some(name) = node_word(word) else {
        return None;
    };
    Some((name, up))
}

/// The sign that leads to a further literal, and the text after it, or None if there is none.
pub fn lead_form(text: &[u8]) -> Option<(Lead, &[u8])>
    ensures some { IfSome result (λ form. text.now ≡ lead_spelling form.0 ++ form.1.now) }
    ensures further { IfSome result (λ form. form.0 ≢ Lead.Rule) }
    ensures none { IfNone result
        ((lead : LeadValue) (rest : List ℕ) → lead ≢ Lead.Rule → text.now ≢ lead_spelling lead ++ rest) }
{
    match text {
        [b' ', b'&', b' ', rest @ ..] => Some((Lead::And, rest)),
        [b' ', b'|', b' ', rest @ ..] => Some((Lead::Or, rest)),
        _ => None,
    }
}

/// A literal in a rule's line, with what leads to it.
#[derive(Drop)]
pub struct Led<'a> {
    pub lead: Lead,
    pub high: bool,
    pub name: Word<'a>,
}

/// Whether the literal that the text begins with wants its node high, and the text without the sign.
fn sign_of(text: &[u8]) -> (bool, &[u8])
    ensures sign { result.0 ≡ tells_high text.now }
    ensures text { result.1.now ≡ unsigned text.now }
{
    match text {
        [b'~', rest @ ..] => (false, rest),
        _ => (true, text),
    }
}

/// The literal that the text begins with and the text after it, or None if its word can't be a node's name.
fn led_form(lead: Lead, text: &[u8]) -> Option<(Led, &[u8])>
    ensures lead { IfSome result (λ form. form.0.lead ≡ lead) }
    ensures high { IfSome result (λ form. form.0.high ≡ tells_high text.now) }
    ensures word { IfSome result (λ form. form.0.name ≡ word_in text.now) }
    ensures name { IfSome result (λ form. IsNodeName form.0.name) }
    ensures rest { IfSome result (λ form. form.1.now ≡ behind_word text.now) }
    ensures none { IfNone result (¬ IsNodeName (word_in text.now)) }
{
    let (high, unsigned) = sign_of(text);
    let (word, rest) = unsigned.split_at(word_len(unsigned));
    let Some(name) = node_word(word) else {
        return None;
    };
    Some((Led { lead, high, name }, rest))
}

/// A rule's line: its literals, its node, and the direction in which it turns the node.
#[derive(Drop)]
pub struct RuleForm<'a> {
    pub leds: Vec<Led<'a>>,
    pub node: Word<'a>,
    pub up: bool,
}

/// What follows the word that begins a rule, or None if the line doesn't begin with it.
fn behind_rule(line: &[u8]) -> Option<&[u8]>
    ensures some { IfSome result (λ rest. line.now ≡ codes "rule " ++ rest.now) }
    ensures none { IfNone result ((rest : List ℕ) → line.now ≢ codes "rule " ++ rest) }
{
    match line {
        [b'r', b'u', b'l', b'e', b' ', rest @ ..] => Some(rest),
        _ => None,
    }
}

/// The rule in a rule's line, or None if the line is none.
pub fn rule_form(alloc: Global, line: &[u8]) -> Result<Option<RuleForm>, AllocError>
    ensures some { IfOk result
        (λ o. IfSome o (λ form. line.now ≡ rule_line_of form.leds.items form.node form.up)) }
    ensures form { IfOk result (λ o. IfSome o (λ form. IsRuleForm form.leds.items form.node)) }
    ensures none { IfOk result
        (λ o. IfNone o
        ((leds : List LedValue) (name : List ℕ) (up : Bool)
        → IsRuleForm leds name
        → line.now ≢ rule_line_of leds name up)) }
{
    let Some(text) = behind_rule(line) else {
        return Ok(None);
    };
    let Some((first, mut rest)) = led_form(Lead::Rule, text) else {
        return Ok(None);
    };
    let mut leds = Vec::new(alloc);
    leds.push(first)?;
    while let Some((next, behind)) = lead_form(rest) {
        let Some((led, after)) = led_form(next, behind) else {
            return Ok(None);
        };
        leds.push(led)?;
        rest = after;
    }
    let Some((node, up)) = end_form(rest) else {
        return Ok(None);
    };
    Ok(Some(RuleForm { leds, node, up }))
}
