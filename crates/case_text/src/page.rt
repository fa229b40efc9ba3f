//! What is printed, and whether memory has sufficed for it.

ghost use Rattle.std.specs.Prelude.{◌≡◌};
ghost use Rattle.std.specs.Result.{result_ok};

use std::alloc::{AllocError, Global};
use std::fmt::{Debug, Write};

/// Lines that are printed whole.
const MOST_LINES: usize = 80;

/// Lines at the front and at the end of a longer text.
const SHOWN: usize = 3;

/// A text, and whether memory has run out for it or for anything that it tells of. Whatever wants memory notes on the
/// page where there was none, and goes on; what comes then may look like an answer, so the text is given out only
/// where memory has sufficed. The prover goes through each place at which a function may be left early, and so
/// whatever prints has none.
#[derive(Drop)]
pub struct Page {
    text: String,
    kept: Result<(), AllocError>,
}

impl Page {
    pub fn new(alloc: Global) -> Page {
        Page {
            text: String::new(alloc),
            kept: Ok(()),
        }
    }

    /// What is printed so far.
    pub fn text(&self) -> &str {
        &self.text
    }

    /// The whole text, where memory has sufficed.
    pub fn whole(self) -> Result<String, AllocError> {
        let Page { text, kept } = self;
        kept.and(Ok(text))
    }

    /// Notes that memory has run out.
    pub fn give_up(&mut self) {
        self.kept = Err(AllocError);
    }

    /// Notes whether memory has sufficed for something, and lets go of what was made.
    pub fn note<T: Drop, E: Drop>(&mut self, done: Result<T, E>) {
        if done.is_err() {
            self.give_up();
        }
    }

    /// Notes whether memory has sufficed for what was to be made, and gives that.
    pub fn taken<T, E: Drop>(&mut self, made: Result<T, E>) -> Option<T>
        ensures { result ≡ result_ok made }
    {
        match made {
            Ok(made) => Some(made),
            Err(_) => {
                self.give_up();
                None
            }
        }
    }

    /// A copy of the items, or no items where memory runs out.
    pub fn copied<T: Copy>(&mut self, alloc: Global, items: &[T]) -> Vec<T> {
        match Vec::from_slice(alloc, items) {
            Ok(copy) => copy,
            Err(_) => {
                self.give_up();
                Vec::new(alloc)
            }
        }
    }

    pub fn put(&mut self, text: &str) {
        let written = self.text.push_str(text);
        self.note(written);
    }

    pub fn number(&mut self, number: u64) {
        let written = write!(self.text, "{number}");
        self.note(written);
    }

    /// The value as `{:?}` prints it.
    pub fn debug<T: Debug>(&mut self, value: &T) {
        let written = write!(self.text, "{value:?}");
        self.note(written);
    }

    /// The byte as a case would spell it.
    fn byte(&mut self, byte: u8) {
        let written = match byte {
            b'\n' => self.text.push_str("\\n"),
            b'\r' => self.text.push_str("\\r"),
            b'\t' => self.text.push_str("\\t"),
            b'\\' => self.text.push_str("\\\\"),
            b' '..=b'~' => self.text.push(char::from(byte)),
            _ => write!(self.text, "\\x{byte:02x}"),
        };
        self.note(written);
    }

    /// The bytes as a case would spell them.
    pub fn bytes(&mut self, bytes: &[u8]) {
        for byte in bytes {
            self.byte(*byte);
        }
    }

    /// Each line behind a bar. Of more than 80 lines the first and the last ones are printed, and how many there are. A
    /// last line without an end is ended by `\e`.
    pub fn lines(&mut self, bytes: &[u8]) {
        let count = ended_lines(bytes);
        for (number, line) in bytes.split(|byte| *byte == b'\n').enumerate() {
            let is_unended = number >= count;
            if is_unended && line.is_empty() {
                continue;
            }
            if count <= MOST_LINES || number < SHOWN || number >= count - SHOWN {
                self.put("| ");
                self.bytes(line);
                self.put(if is_unended { "\\e\n" } else { "\n" });
            } else if number == SHOWN {
                self.put("| .. ");
                self.number(count as u64);
                self.put(" lines\n");
            }
        }
    }

    /// The numbers, each behind a blank.
    pub fn numbers(&mut self, numbers: &[u64]) {
        for number in numbers {
            self.put(" ");
            self.number(*number);
        }
    }
}

fn ended_lines(bytes: &[u8]) -> usize {
    bytes.iter().filter(|byte| **byte == b'\n').count()
}
