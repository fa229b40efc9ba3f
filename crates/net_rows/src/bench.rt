//! What a case sets out.

use case_text::{CaseFiles, Page};
use prs_core::Rules;
use std::alloc::{AllocError, Global};

/// The files of a case, which of them is the rule file and which the script, counted from 1, and the rules that cells
/// have written.
#[derive(Drop)]
pub struct NetBench {
    pub files: CaseFiles,
    net: usize,
    script: usize,
    pub rules: Rules,
}

impl NetBench {
    pub fn new(alloc: Global) -> Result<NetBench, AllocError> {
        let rules = Rules::new(alloc, 0)?;
        Ok(NetBench {
            files: CaseFiles::new(alloc),
            net: 0,
            script: 0,
            rules,
        })
    }

    /// Forgets all that was set out.
    pub fn begin(&mut self, alloc: Global, page: &mut Page) {
        if let Some(begun) = page.taken(NetBench::new(alloc)) {
            *self = begun;
        }
    }

    /// The last file is the rule file.
    pub fn take_net(&mut self) {
        self.net = self.files.list().len();
    }

    /// The last file is the script.
    pub fn take_script(&mut self) {
        self.script = self.files.list().len();
    }

    /// The bytes of the file of this number, none where there is no such file.
    fn file(&self, number: usize) -> &[u8] {
        match self.files.list().get(number.wrapping_sub(1)) {
            Some(file) => &file.1,
            None => &[],
        }
    }

    /// The rule file.
    pub fn net(&self) -> &[u8] {
        self.file(self.net)
    }

    /// The script.
    pub fn script(&self) -> &[u8] {
        self.file(self.script)
    }
}
