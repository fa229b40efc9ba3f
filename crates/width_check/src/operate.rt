//! The operators on numbers of a width.

ghost use Rattle.std.specs.Prelude.{◌≡◌, ◌+◌, ◌<◌, ◌≤◌, ◌^◌};
ghost use Rattle.width_check.specs.Values.{one_if, operated};

use chp_syntax::Op;

/// The greatest number of the width.
pub(crate) fn greatest(width: u8) -> u64
    requires some { 1 ≤ width }
    requires most { width ≤ 64 }
    ensures { result + 1 ≡ 2 ^ width }
{
    if width == 64 {
        u64::MAX
    } else {
        (1 << width) - 1
    }
}

/// The sum of two numbers of the width, modulo 2 to the width.
fn added(width: u8, left: u64, right: u64) -> u64
    requires some { 1 ≤ width }
    requires most { width ≤ 64 }
    requires left { left < 2 ^ width }
    requires right { right < 2 ^ width }
    ensures { result ≡ operated Op.Add width left right }
{
    let room = greatest(width) - left;
    if right <= room {
        left + right
    } else {
        right - room - 1
    }
}

/// The difference of two numbers of the width, modulo 2 to the width.
fn subtracted(width: u8, left: u64, right: u64) -> u64
    requires some { 1 ≤ width }
    requires most { width ≤ 64 }
    requires left { left < 2 ^ width }
    requires right { right < 2 ^ width }
    ensures { result ≡ operated Op.Sub width left right }
{
    if right <= left {
        left - right
    } else {
        greatest(width) - right + left + 1
    }
}

fn one_if(holds: bool) -> u64
    ensures { result ≡ one_if holds }
{
    u64::from(holds)
}

/// The result of an operator on two unsigned numbers of the width: bit by bit, modulo 2 to the width for sum and
/// difference, and 1 or 0 for a comparison. (Our profile.)
pub fn operated(op: Op, width: u8, left: u64, right: u64) -> u64
    requires some { 1 ≤ width }
    requires most { width ≤ 64 }
    requires left { left < 2 ^ width }
    requires right { right < 2 ^ width }
    ensures { result ≡ operated op width left right }
{
    match op {
        Op::And => left & right,
        Op::Or => left | right,
        Op::Xor => left ^ right,
        Op::Add => added(width, left, right),
        Op::Sub => subtracted(width, left, right),
        Op::Eq => one_if(left == right),
        Op::Ne => one_if(left != right),
        Op::Lt => one_if(left < right),
        Op::Le => one_if(left <= right),
        Op::Gt => one_if(left > right),
        Op::Ge => one_if(left >= right),
    }
}
