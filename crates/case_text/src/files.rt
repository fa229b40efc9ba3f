//! The files that a case sets out.

use crate::page::Page;
use crate::words::bytes_of;
use std::alloc::Global;

/// Whether two digits follow each `\x` of the line, and something each other backslash.
pub fn is_spelled(line: &str) -> bool {
    let mut begun = false;
    let mut digits = 0_u8;
    for byte in line.as_bytes() {
        if digits > 0 {
            if !matches!(*byte, b'0'..=b'9' | b'a'..=b'f') {
                return false;
            }
            digits -= 1;
        } else if begun {
            begun = false;
            digits = if *byte == b'x' { 2 } else { 0 };
        } else {
            begun = *byte == b'\\';
        }
    }
    digits == 0 && !begun
}

/// Files with names, in the order in which a case sets them out.
#[derive(Drop)]
pub struct CaseFiles {
    files: Vec<(String, Vec<u8>)>,
}

impl CaseFiles {
    pub fn new(alloc: Global) -> CaseFiles {
        CaseFiles {
            files: Vec::new(alloc),
        }
    }

    /// Adds a file of this name and this text after the others.
    pub fn add(&mut self, alloc: Global, name: &str, text: Vec<u8>, page: &mut Page) {
        if let Some(name) = page.taken(name.to_string(alloc)) {
            page.note(self.files.push((name, text)));
        }
    }

    /// Adds a file of this name after the others, with the text that may follow the name.
    fn begin(&mut self, alloc: Global, line: &str, page: &mut Page) {
        let (name, text) = line.split_once(' ').unwrap_or((line, ""));
        let text = bytes_of(alloc, text, page);
        self.add(alloc, name, text, page);
    }

    /// Appends to the last file.
    fn append(&mut self, bytes: &[u8], page: &mut Page) {
        if let Some(file) = self.files.last_mut() {
            page.note(file.1.extend_from_slice(bytes));
        }
    }

    /// Appends the text, and what comes after it, to the last file.
    fn append_text(&mut self, alloc: Global, text: &str, end: &[u8], page: &mut Page) {
        let text = bytes_of(alloc, text, page);
        self.append(&text, page);
        self.append(end, page);
    }

    /// Appends a text so many times to the last file, and says whether the line gives these.
    fn repeat(&mut self, alloc: Global, line: &str, page: &mut Page) -> bool {
        let (count, text) = line.split_once(' ').unwrap_or(("", ""));
        let Ok(count) = count.parse::<u32>() else {
            return false;
        };
        let text = bytes_of(alloc, text, page);
        for _ in 0..count {
            self.append(&text, page);
        }
        true
    }

    /// Begins the last file or appends to it, where the word of the line says so, and says whether it is such a line.
    pub fn obey(&mut self, alloc: Global, word: &str, rest: &str, page: &mut Page) -> bool {
        match word {
            "file" => self.begin(alloc, rest, page),
            "+" => self.append_text(alloc, rest, b"", page),
            "|" => self.append_text(alloc, rest, b"\n", page),
            "repeat" => return self.repeat(alloc, rest, page),
            _ => return false,
        }
        true
    }

    /// The bytes of the last file, none where there is no file.
    pub fn last(&self) -> &[u8] {
        match self.files.last() {
            Some(file) => &file.1,
            None => &[],
        }
    }

    /// A copy of the list.
    pub fn copied(&self, alloc: Global, page: &mut Page) -> Vec<(String, Vec<u8>)> {
        let mut copy = CaseFiles::new(alloc);
        for file in &self.files {
            let text = page.copied(alloc, &file.1);
            copy.add(alloc, &file.0, text, page);
        }
        copy.files
    }

    /// Each file's name and bytes, in order.
    pub fn list(&self) -> &[(String, Vec<u8>)] {
        &self.files
    }
}
