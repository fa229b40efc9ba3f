//! What a line of a script says.

ghost use Rattle.std.specs.Prelude.{◌≡◌, ◌≢◌, ◌++◌, ◌∷◌, ℕ, List, [], map, true, false, codes, IfOk, IfSome, IfNone};
ghost use Rattle.std.specs.List.{AllZip};
ghost use Rattle.chp_base.specs.Names.{IsName};
ghost use Rattle.env_script.specs.declared.line.Said.{Said};
ghost use Rattle.env_script.specs.declared.line.Line.{Line};
ghost use Rattle.env_script.specs.Numbers.{IsNumber};
ghost use Rattle.env_script.specs.ScriptText.{SaysBehind, LineSays};

use crate::number::number_of;
use chp_base::{Name, name_of};
use std::alloc::{AllocError, Global};
use std::marker::Model;

/// Numbers, in order.
#[derive(Drop)]
pub struct NumberList {
    items: Vec<u64>,
}

impl Model for NumberList {
    ghost use Rattle.std.specs.Prelude.{List, ℕ};

    ghost Value = { List ℕ };

    ghost view = { λ n. n.items.items };
}

impl NumberList {
    pub fn new(items: Vec<u64>) -> NumberList
        ensures { result ≡ items.items }
    {
        NumberList { items }
    }

    pub fn items(&self) -> &[u64]
        ensures { result.now ≡ self.now }
    {
        &self.items
    }

    pub fn into_items(self) -> Vec<u64>
        ensures { result.items ≡ self }
    {
        self.items
    }
}

/// What follows the name in a line.
#[derive(Drop)]
pub enum Said {
    Numbers(NumberList),
    /// The word `all`.
    Every,
}

/// A line of a script: the name of a channel, and what is said of it.
#[derive(Drop)]
pub struct Line {
    pub name: Name,
    pub said: Said,
}

/// The name before the colon, or None where the word is not a name followed by a colon.
fn name_in(alloc: Global, word: &[u8]) -> Result<Option<Name>, AllocError>
    ensures some { IfOk result (λ o. IfSome o (λ name. word.now ≡ name ++ codes ":")) }
    ensures name { IfOk result (λ o. IfSome o IsName) }
    ensures none { IfOk result (λ o. IfNone o ((name : List ℕ) → IsName name → word.now ≢ name ++ codes ":")) }
{
    match word {
        [name @ .., b':'] => name_of(alloc, name),
        _ => Ok(None),
    }
}

fn is_all(words: &[&[u8]]) -> bool
    ensures yes { result ≡ true → map (λ word. word.now) words.now ≡ codes "all" ∷ [] }
    ensures no { result ≡ false → map (λ word. word.now) words.now ≢ codes "all" ∷ [] }
{
    match words {
        [word] => *word == b"all".as_slice(),
        _ => false,
    }
}

/// The numbers that these words are, or None where one of them is not a number.
fn numbers_in(alloc: Global, words: &[&[u8]]) -> Result<Option<NumberList>, AllocError>
    ensures some { IfOk result (λ o. IfSome o (λ ns. AllZip IsNumber (map (λ word. word.now) words.now) ns)) }
    ensures none { IfOk result
        (λ o. IfNone o ((ns : List ℕ) → ¬ AllZip IsNumber (map (λ word. word.now) words.now) ns)) }
{
    let mut numbers = Vec::new(alloc);
    for word in words {
        let Some(number) = number_of(word) else {
            return Ok(None);
        };
        numbers.push(number)?;
    }
    Ok(Some(NumberList::new(numbers)))
}

/// What the words after a name say, or None where they say nothing.
fn said_in(alloc: Global, words: &[&[u8]]) -> Result<Option<Said>, AllocError>
    ensures some { IfOk result (λ o. IfSome o (SaysBehind (map (λ word. word.now) words.now))) }
    ensures none { IfOk result
        (λ o. IfNone o ((said : Said) → ¬ SaysBehind (map (λ word. word.now) words.now) said)) }
{
    if is_all(words) {
        return Ok(Some(Said::Every));
    }
    let Some(numbers) = numbers_in(alloc, words)? else {
        return Ok(None);
    };
    Ok(Some(Said::Numbers(numbers)))
}

/// What the words of a line say, or None where they are not a name with its colon followed by numbers or `all`.
pub fn line_in(alloc: Global, words: &[&[u8]]) -> Result<Option<Line>, AllocError>
    ensures some { IfOk result (λ o. IfSome o (LineSays (map (λ word. word.now) words.now))) }
    ensures none { IfOk result (λ o. IfNone o ((l : Line) → ¬ LineSays (map (λ word. word.now) words.now) l)) }
{
    let [first, behind @ ..] = words else {
        return Ok(None);
    };
    let Some(name) = name_in(alloc, first)? else {
        return Ok(None);
    };
    let Some(said) = said_in(alloc, behind)? else {
        return Ok(None);
    };
    Ok(Some(Line { name, said }))
}
