//! Names, numbers of a width, and tables of names.

ghost use Rattle.std.specs.Prelude.{◌<◌, ◌≤◌, ◌+◌, ◌-◌, ◌^◌, length};

use case_text::{Page, bytes_of};
use chp_base::{Added, Bits, Name, Symbols, name_of, node_name_of};
use std::alloc::Global;

/// Whether the text is a name of the language, or a name of a node.
fn is_name(alloc: Global, text: &[u8], of_node: bool, page: &mut Page) -> bool {
    let found = if of_node {
        node_name_of(alloc, text)
    } else {
        name_of(alloc, text)
    };
    matches!(page.taken(found), Some(Some(_)))
}

fn put_answer(page: &mut Page, is_so: bool) {
    page.put(if is_so { "yes\n" } else { "no\n" });
}

/// Whether the text is a name of the language, or a name of a node.
pub fn name(alloc: Global, text: &str, of_node: bool, page: &mut Page) {
    let text = bytes_of(alloc, text, page);
    let is_so = is_name(alloc, &text, of_node, page);
    put_answer(page, is_so);
}

/// Whether there is a number of this width and this value.
pub fn bits(line: &str, page: &mut Page) {
    let (width, value) = line.split_once(' ').unwrap_or((line, ""));
    match (width.parse::<u8>(), value.parse::<u64>()) {
        (Ok(width), Ok(value)) => put_answer(page, Bits::new(width, value).is_some()),
        _ => page.put("?\n"),
    }
}

fn put_place(page: &mut Page, word: &str, place: u32) {
    page.put(word);
    page.number(u64::from(place));
    page.put("\n");
}

/// The name that the word is, or None, behind a question mark, where it is none.
fn named(alloc: Global, word: &str, page: &mut Page) -> Option<Name> {
    match name_of(alloc, word.as_bytes()) {
        Ok(Some(name)) => Some(name),
        Ok(None) => {
            page.put("?\n");
            None
        }
        Err(_) => {
            page.give_up();
            None
        }
    }
}

/// Adds the name that the word is to a table.
fn add(alloc: Global, symbols: &mut Symbols, word: &str, page: &mut Page)
    requires { length symbols.old < 2 ^ 32 - 1 }
    ensures { length symbols.new ≤ length symbols.old + 1 }
{
    let Some(name) = named(alloc, word, page) else {
        return;
    };
    match symbols.add(name) {
        Ok(Added::Fresh(place)) => put_place(page, "fresh ", place),
        Ok(Added::Known(place)) => put_place(page, "known ", place),
        Err(_) => page.give_up(),
    }
}

/// Looks for the name that the word is in a table.
fn find(alloc: Global, symbols: &Symbols, word: &str, page: &mut Page) {
    let Some(name) = named(alloc, word, page) else {
        return;
    };
    match symbols.find(&name) {
        Some(place) => put_place(page, "at ", place),
        None => page.put("none\n"),
    }
}

/// Adds the first two names of the line to a table, looks for the first and for the third one, and adds the first
/// again.
pub fn symbols(alloc: Global, line: &str, page: &mut Page) {
    let (first, line) = line.split_once(' ').unwrap_or((line, ""));
    let (second, third) = line.split_once(' ').unwrap_or((line, ""));
    let mut symbols = Symbols::new(alloc);
    add(alloc, &mut symbols, first, page);
    add(alloc, &mut symbols, second, page);
    find(alloc, &symbols, first, page);
    find(alloc, &symbols, third, page);
    add(alloc, &mut symbols, first, page);
}
