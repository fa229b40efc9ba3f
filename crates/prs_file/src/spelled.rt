//! Lines of a text, and the pieces that they consist of.

ghost use Rattle.std.specs.Prelude.{◌≡◌, ◌≤◌, ◌==◌, length, position, bytes_eq};
ghost use Rattle.std.specs.List.{flat_map};
ghost use Rattle.prs_file.specs.Lines.{line_length, first_line, behind_line};

/// Where the first line ends.
fn line_end(text: &[u8]) -> Option<usize>
    ensures { result ≡ position (λ b. b == 10) text.now }
{
    text.iter().position(|byte| *byte == b'\n')
}

/// The number of bytes of the first line, its end included where it has one.
fn line_len(text: &[u8]) -> usize
    ensures length { result ≡ line_length text.now }
    ensures within { result ≤ length text.now }
{
    match line_end(text) {
        None => text.len(),
        Some(at) => at + 1,
    }
}

/// The first line with its end, and the text after it.
pub fn cut_line(text: &[u8]) -> (&[u8], &[u8])
    ensures line { result.0.now ≡ first_line text.now }
    ensures rest { result.1.now ≡ behind_line text.now }
{
    text.split_at(line_len(text))
}

fn is_same(front: &[u8], piece: &[u8]) -> bool
    ensures { result ≡ bytes_eq front.now piece.now }
{
    front == piece
}

/// Whether the line is these pieces, one after another.
pub fn is_spelled(line: &[u8], pieces: &[&[u8]]) -> bool
    ensures { result ≡ bytes_eq line.now (flat_map (λ piece. piece.now) pieces.now) }
{
    let mut rest = line;
    for piece in pieces {
        if rest.len() < piece.len() {
            return false;
        }
        let (front, back) = rest.split_at(piece.len());
        if !is_same(front, piece) {
            return false;
        }
        rest = back;
    }
    rest.is_empty()
}
