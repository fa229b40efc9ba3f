//! How far a rule file has been given out.

ghost use Rattle.std.specs.Prelude.{◌≡◌, ◌<◌, ◌≤◌, [], ◌++◌, true, false, length, take, drop, min, vec_len};
ghost use Rattle.net_stream.specs.Places.{IsPlaceOf, places_left, text_from};
ghost use Rattle.net_stream.specs.Cursors.{IsCursor, text_left};

use crate::line::make_line;
use crate::place::Place;
use net_compose::Circuit;

/// The line in the buffer, how many of its bytes were given out, and the position of the next line.
#[derive(Drop)]
pub(crate) struct Cursor {
    pub line: Vec<u8>,
    pub given: usize,
    pub place: Place,
}

/// Whether the text has ended at this position.
fn is_over(net: &Circuit, place: Place) -> bool
    requires { IsPlaceOf net.now place }
    ensures over { result ≡ true → text_from net.now place ≡ [] }
    ensures goes_on { result ≡ false → 0 < places_left net.now place }
{
    match place {
        Place::Up(node) => node as usize == net.first().len(),
        _ => false,
    }
}

/// Copies bytes to the start of the piece, as many as there are and as it takes, and returns their number.
fn copy_to_front(bytes: &[u8], piece: &mut [u8]) -> usize
    ensures count { result ≡ min (length piece.old) (length bytes.now) }
    ensures bytes { take result piece.new ≡ take result bytes.now }
{
    let n = piece.len().min(bytes.len());
    piece[..n].copy_from_slice(&bytes[..n]);
    n
}

/// What follows the first `done` bytes.
fn behind(bytes: &[u8], done: usize) -> &[u8]
    requires { done ≤ length bytes.now }
    ensures { result.now ≡ drop done bytes.now }
{
    &bytes[done..]
}

/// Makes lines until one has bytes that weren't given out, or the text has ended.
fn refresh(net: &Circuit, cursor: &mut Cursor)
    requires { IsCursor net.now cursor.old }
    ensures left { text_left net.now cursor.new ≡ text_left net.now cursor.old }
    ensures ready { cursor.new.given ≡ vec_len cursor.new.line → text_left net.now cursor.new ≡ [] }
    ensures cursor { IsCursor net.now cursor.new }
{
    if cursor.given < cursor.line.len() {
        return;
    }
    cursor.line.clear();
    cursor.given = 0;
    while cursor.line.is_empty() && !is_over(net, cursor.place) {
        cursor.place = make_line(net, cursor.place, &mut cursor.line);
    }
}

/// Gives out bytes of one line, at least one where the piece isn't empty and the text hasn't ended.
pub(crate) fn give(net: &Circuit, cursor: &mut Cursor, piece: &mut [u8]) -> usize
    requires { IsCursor net.now cursor.old }
    ensures given { text_left net.now cursor.old ≡ take result piece.new ++ text_left net.now cursor.new }
    ensures within { result ≤ length piece.old }
    ensures none { result ≡ 0 → 0 < length piece.old → text_left net.now cursor.new ≡ [] }
    ensures cursor { IsCursor net.now cursor.new }
{
    refresh(net, cursor);
    let n = copy_to_front(behind(&cursor.line, cursor.given), piece);
    cursor.given += n;
    n
}
