//! What a reset does to rules.

ghost use Rattle.std.specs.Prelude.{◌≡◌, not, if◌then◌else◌};
ghost use Rattle.net_compose.specs.Circuits.{ending_of};

/// What a reset adds to the guard of a rule.
#[derive(Clone, Copy)]
pub enum Ending {
    /// Nothing.
    Plain,
    /// The rule waits until the reset is over: each term ends in `~reset`.
    Held(u32),
    /// The reset enables the rule: the last term is `reset`.
    Forced(u32),
}

/// Whether a rule in this direction leads back to the node's first value.
pub(crate) fn leads_back(high: bool, up: bool) -> bool
    ensures { result ≡ if up then high else not high }
{
    if up { high } else { !high }
}

/// What the reset adds to the rule of a node, which has rules or not, and which leads back to the first value or away
/// from it.
pub(crate) fn ending_of(reset: Option<u32>, has: bool, back: bool) -> Ending
    ensures { result ≡ ending_of reset has back }
{
    match reset {
        None => Ending::Plain,
        Some(node) => {
            if !has {
                Ending::Plain
            } else if back {
                Ending::Forced(node)
            } else {
                Ending::Held(node)
            }
        }
    }
}
