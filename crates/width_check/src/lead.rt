//! How the members of a chain get their width.

ghost use Rattle.std.specs.Prelude.{◌≡◌};
ghost use Rattle.width_check.specs.Leading as leading;

/// Which member of a chain gives the expected width of all: the first one, or a later one, with this width, or none,
/// since no member has a width.
#[derive(Clone, Copy)]
pub enum Lead {
    First,
    Later(u8),
    Nothing,
}

impl Lead {
    /// The width expected of the first member: None if the first member itself gives it, and 0 if none does.
    pub fn known(self) -> Option<u8>
        ensures { result ≡ leading.known self }
    {
        match self {
            Lead::First => None,
            Lead::Later(width) => Some(width),
            Lead::Nothing => Some(0),
        }
    }

    /// The width expected of all members, given that of the first one; None if no member has a width.
    pub fn width(self, first: Option<u8>) -> Option<u8>
        ensures { result ≡ leading.width self first }
    {
        match self {
            Lead::First => first,
            Lead::Later(width) => Some(width),
            Lead::Nothing => None,
        }
    }
}
