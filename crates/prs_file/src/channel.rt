//! The lines of channels.

ghost use Rattle.std.specs.Prelude.{◌≡◌, ◌≢◌, ◌≤◌, ◌<◌, ◌==◌, ℕ, List, length, drop, take, bytes_eq, IfOk, IfSome, IfNone};
ghost use Rattle.std.specs.List.{position_or_len};
ghost use Rattle.chp_base.specs.declared.channel.Channel.{Channel as ChannelValue};
ghost use Rattle.prs_file.specs.Reading.{IsChannelForm};
ghost use Rattle.prs_file.specs.Spelling.{channel_spelling, kind_spelling};
ghost use Rattle.prs_file.specs.Channels.{kind_by_letter, line_of, word_behind};

use crate::spelled::is_spelled;
use chp_base::{Channel, Kind, name_of};
use itoa::Buffer;
use std::alloc::{AllocError, Global};

/// The kind given by the line's first letter, if it is a channel's line.
fn kind_of(line: &[u8]) -> Kind
    ensures { result ≡ kind_by_letter line.now }
{
    match line {
        [b'i', ..] => Kind::In,
        [b'o', ..] => Kind::Out,
        _ => Kind::Chan,
    }
}

/// The number of bytes before the first space.
pub fn word_len(text: &[u8]) -> usize
    ensures value { result ≡ position_or_len (λ b. b == 32) text.now }
    ensures within { result ≤ length text.now }
{
    let mut count = 0;
    for byte in text {
        if *byte == b' ' {
            return count;
        }
        count += 1;
    }
    count
}

fn is_line_of(line: &[u8], kind: Kind, name: &[u8], width: u8) -> bool
    ensures { result ≡ bytes_eq line.now (line_of kind name.now width) }
{
    let mut number = Buffer::new();
    let width = number.format(width).as_bytes();
    match kind {
        Kind::In => is_spelled(line, &[b"in ", name, b" ", width, b"\n"]),
        Kind::Out => is_spelled(line, &[b"out ", name, b" ", width, b"\n"]),
        Kind::Chan => is_spelled(line, &[b"chan ", name, b" ", width, b"\n"]),
    }
}

/// The width for which the line is that of a channel of this kind and name, if there is one.
fn width_of(line: &[u8], kind: Kind, name: &[u8]) -> Option<u8>
    ensures some { IfSome result (λ width. line.now ≡ line_of kind name.now width) }
    ensures range { IfSome result (λ width. (1 ≤ width) × (width ≤ 64)) }
    ensures none { IfNone result ((width : ℕ) → 1 ≤ width → width ≤ 64 → line.now ≢ line_of kind name.now width) }
{
    for width in 1..65u8 {
        if is_line_of(line, kind, name, width) {
            return Some(width);
        }
    }
    None
}

fn kind_len(kind: Kind) -> usize
    ensures { result ≡ length (kind_spelling kind) }
{
    match kind {
        Kind::In => 3,
        Kind::Out => 4,
        Kind::Chan => 5,
    }
}

/// The word after the kind.
fn word_of(line: &[u8], kind: Kind) -> &[u8]
    ensures { result.now ≡ word_behind kind line.now }
{
    let start = kind_len(kind);
    if line.len() < start {
        return &line[..0];
    }
    let text = &line[start..];
    &text[..word_len(text)]
}

/// The channel in a channel's line, or None where the line is none.
pub fn channel_form(alloc: Global, line: &[u8]) -> Result<Option<Channel>, AllocError>
    ensures some { IfOk result (λ o. IfSome o (λ c. line.now ≡ channel_spelling c)) }
    ensures form { IfOk result (λ o. IfSome o (λ c. IsChannelForm c)) }
    ensures none { IfOk result
        (λ o. IfNone o ((c : ChannelValue) → IsChannelForm c → line.now ≢ channel_spelling c)) }
{
    let kind = kind_of(line);
    let word = word_of(line, kind);
    let Some(width) = width_of(line, kind, word) else {
        return Ok(None);
    };
    let Some(name) = name_of(alloc, word)? else {
        return Ok(None);
    };
    Ok(Some(Channel { name, kind, width }))
}
