//! The words, the numbers and the texts of a case.

use crate::page::Page;
use std::alloc::Global;

/// How far an escape has been read.
#[derive(Clone, Copy)]
enum Escape {
    Outside,
    Begun,
    Hex,
    Half(u8),
}

fn digit(byte: u8) -> u8 {
    match byte {
        b'0'..=b'9' => byte - b'0',
        b'a'..=b'f' => byte - b'a' + 10,
        _ => 0,
    }
}

/// What follows a byte of a spelled text, and the byte for which it stands.
fn after(escape: Escape, byte: u8) -> (Escape, Option<u8>) {
    match escape {
        Escape::Outside if byte == b'\\' => (Escape::Begun, None),
        Escape::Outside => (Escape::Outside, Some(byte)),
        Escape::Begun => match byte {
            b'x' => (Escape::Hex, None),
            b'e' => (Escape::Outside, None),
            b'n' => (Escape::Outside, Some(b'\n')),
            b'r' => (Escape::Outside, Some(b'\r')),
            b't' => (Escape::Outside, Some(b'\t')),
            b's' => (Escape::Outside, Some(b' ')),
            _ => (Escape::Outside, Some(byte)),
        },
        Escape::Hex => (Escape::Half(digit(byte)), None),
        Escape::Half(high) => (Escape::Outside, Some((high << 4) | digit(byte))),
    }
}

/// The bytes for which a text stands: `\n`, `\r`, `\t`, `\s` for a blank, `\e` for nothing, `\xHH` for any byte, and
/// itself for every other character, also behind a backslash.
pub fn bytes_of(alloc: Global, text: &str, page: &mut Page) -> Vec<u8> {
    let mut bytes = Vec::new(alloc);
    let mut escape = Escape::Outside;
    for byte in text.as_bytes() {
        let (next, made) = after(escape, *byte);
        escape = next;
        if let Some(made) = made {
            page.note(bytes.push(made));
        }
    }
    bytes
}

/// The word that a spelled text is.
fn word_of(alloc: Global, spelled: &str, page: &mut Page) -> String {
    let mut word = String::new(alloc);
    for byte in &bytes_of(alloc, spelled, page) {
        page.note(word.push(char::from(*byte)));
    }
    word
}

/// The words of a line, which single blanks part.
pub fn words_of(alloc: Global, line: &str, page: &mut Page) -> Vec<String> {
    let mut words = Vec::new(alloc);
    if line.is_empty() {
        return words;
    }
    for spelled in line.split(' ') {
        let word = word_of(alloc, spelled, page);
        page.note(words.push(word));
    }
    words
}

/// The numbers of a line, or None where a word is none.
pub fn numbers_of(alloc: Global, line: &str, page: &mut Page) -> Option<Vec<u64>> {
    let mut numbers = Vec::new(alloc);
    for word in line.split_whitespace() {
        match word.parse::<u64>() {
            Ok(number) => page.note(numbers.push(number)),
            Err(_) => return None,
        }
    }
    Some(numbers)
}
