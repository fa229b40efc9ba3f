//! The changes of a wave.

use crate::parts::put_cause;
use case_text::Page;
use std::alloc::Global;
use wave_file::{WaveError, read_wave, unwave_text};

/// Bytes that a wave may have.
const MOST_OF_WAVE: usize = 268_435_456;

/// The changes of the wave that the text spells, or the number and the line of the cause for which it is refused.
pub fn unwave(alloc: Global, text: &[u8], page: &mut Page) {
    if text.len() > MOST_OF_WAVE {
        return page.put("too long\n");
    }
    match read_wave(alloc, text) {
        Ok(wave) => {
            if let Some(text) = page.taken(unwave_text(alloc, &wave)) {
                page.lines(&text);
            }
        }
        Err(WaveError::Refused { fault, line }) => put_cause(page, fault.number(), line),
        Err(WaveError::NoMemory(_)) => page.give_up(),
    }
}
