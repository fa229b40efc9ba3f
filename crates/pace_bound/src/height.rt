//! Completion trees.

ghost use Rattle.std.specs.Prelude.{◌≡◌, ◌≢◌, ◌+◌, ◌*◌, ◌<◌};
ghost use Rattle.handshake_expand.specs.Layout.{capped};
ghost use Rattle.round_time.specs.Longest.{tree_height};

/// How many C-elements, one behind the other, a completion tree over so many leaves has.
pub(crate) fn tree_height(leaves: u64) -> u64
    ensures { result ≡ tree_height leaves }
{
    let mut height = 0;
    let mut nodes = leaves;
    while nodes > 1 {
        nodes -= nodes / 2;
        height += 1;
    }
    height
}

/// For how long the request of a member of a sequence is high once it has answered: the last one's until that of the
/// sequence falls, and then two moves for each Q-element before it.
pub(crate) fn member_held(held: u64, place: usize, count: usize) -> u64
    requires { place < count }
    ensures last { place + 1 ≡ count → result ≡ capped (held + 2 * place) }
    ensures other { place + 1 ≢ count → result ≡ 2 }
{
    if place + 1 == count {
        held.saturating_add((place as u64).saturating_mul(2))
    } else {
        2
    }
}
