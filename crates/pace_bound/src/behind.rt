//! What comes behind the bits of an expression.

ghost use Rattle.std.specs.Prelude.{◌≡◌, ◌+◌, ◌≤◌, ◌++◌, List, ℕ, length, max, []};
ghost use Rattle.handshake_expand.specs.Layout.{capped};
ghost use Rattle.pace_bound.specs.Bits.{op_bits, rippled, ones};
ghost use Rattle.pace_bound.specs.Behind.{reached_over};

use chp_syntax::Op;

/// Behind which of an expression's bits more gates come than behind others.
#[derive(Clone, Copy)]
pub(crate) enum Order {
    /// None: as many behind each.
    Alike,
    /// The lower ones, by a carry: behind each bit comes one gate more than behind the next one above.
    Carried,
    /// The same but for the lowest bit, by a conjunction that begins with two: as many as behind the next one.
    Joined,
}

/// How many gates, one behind the other, come behind the bits of an expression: so many behind the highest, and behind
/// the others by the order.
#[derive(Clone, Copy)]
pub(crate) struct Behind {
    pub order: Order,
    pub gates: u64,
}

/// So many gates more, in this order.
fn more(behind: Behind, order: Order, gates: u64) -> Behind
    ensures order { result.order ≡ order }
    ensures gates { result.gates ≡ capped (behind.gates + gates) }
{
    let gates = behind.gates.saturating_add(gates);
    Behind { order, gates }
}

/// What comes behind the bits of both operands of a sum or a difference.
fn rippled(behind: Behind, width: u8) -> Behind
    requires { 1 ≤ width }
    ensures { (us vs : List ℕ) → length us ≡ width → length vs ≡ width
        → reached_over behind (rippled [] us vs) ≡ max (reached_over result us) (reached_over result vs) }
{
    match behind.order {
        Order::Alike | Order::Carried => more(behind, Order::Carried, 1),
        Order::Joined => {
            if width > 1 {
                more(behind, Order::Carried, 2)
            } else {
                more(behind, Order::Carried, 1)
            }
        }
    }
}

/// What comes behind the bits of both operands of an operator, numbers of one width, where this comes behind those of
/// its result.
pub(crate) fn operands(behind: Behind, op: Op, width: u8) -> Behind
    requires { 1 ≤ width }
    ensures { (us vs : List ℕ) → length us ≡ width → length vs ≡ width
        → reached_over behind (op_bits op us vs) ≡ max (reached_over result us) (reached_over result vs) }
{
    match op {
        Op::And | Op::Or | Op::Xor => more(behind, behind.order, 1),
        Op::Add | Op::Sub => rippled(behind, width),
        Op::Eq | Op::Ne => more(behind, Order::Joined, 1),
        Op::Lt | Op::Le | Op::Gt | Op::Ge => more(behind, Order::Carried, 1),
    }
}

/// What comes behind the lower bits of a number, and what behind the upper ones, of which there are so many.
pub(crate) fn divided(behind: Behind, upper: u8) -> (Behind, Behind)
    ensures { (us vs : List ℕ) → 1 ≤ length us → length vs ≡ upper
        → reached_over behind (us ++ vs) ≡ max (reached_over result.0 us) (reached_over result.1 vs) }
{
    let above = u64::from(upper);
    match behind.order {
        Order::Alike => (behind, behind),
        Order::Carried => (more(behind, Order::Carried, above), behind),
        Order::Joined => (
            more(behind, Order::Joined, above),
            more(behind, Order::Carried, 1),
        ),
    }
}

/// How many gates come one behind the other from the request of bits that follow it on, so many bits.
pub(crate) fn from_request(behind: Behind, width: u8) -> u64
    requires { 1 ≤ width }
    ensures { result ≡ reached_over behind (ones width) }
{
    let lowest = match behind.order {
        Order::Alike => 1,
        Order::Carried | Order::Joined => u64::from(width),
    };
    behind.gates.saturating_add(lowest)
}
