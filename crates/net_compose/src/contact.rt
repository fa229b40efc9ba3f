//! The sites of a program's statements on its channels and variables.

ghost use Rattle.std.specs.Prelude.{◌≡◌, List, map, IfOk};
ghost use Rattle.prs_core.specs.Pairs.{Pair, pair_of};
ghost use Rattle.net_compose.specs.Contacts.{sends, takes, writes, rail_in};

use function_blocks::Bit;
use std::alloc::{AllocError, Global};
use std::marker::Model;

/// The bits of a value that is sent or written. Contracts see the list of them.
#[derive(Drop)]
pub struct Site {
    bits: Vec<Bit>,
}

impl Model for Site {
    ghost use Rattle.std.specs.Prelude.{List};
    ghost use Rattle.prs_core.specs.Pairs.{Pair};

    ghost Value = { List Pair };

    ghost view = { λ s. s.bits.items };
}

impl Site {
    pub(crate) fn new(bits: Vec<Bit>) -> Site
        ensures { result ≡ bits.items }
    {
        Site { bits }
    }

    /// The rail of a bit that is high for this value.
    fn rail(&self, bit: usize, one: bool) -> u32
        ensures { result ≡ rail_in one (pair_of self.now bit) }
    {
        match self.bits.get(bit) {
            Some(found) => found.rail(one),
            None => Bit::at(0).rail(one),
        }
    }
}

/// What a statement does at its site on a channel or a variable.
#[derive(Drop)]
pub enum Meeting {
    /// It sends these bits on the channel.
    Sends { chan: u32, site: Site },
    /// It receives on the channel, and this node has stored the value.
    Takes { chan: u32, node: u32 },
    /// It writes the variable by these bits.
    Writes { var: u32, site: Site },
}

/// A site of a statement on a channel or a variable.
#[derive(Drop)]
pub struct Contact {
    pub meeting: Meeting,
}

impl Model for Contact {
    ghost use Rattle.net_compose.specs.Contacts.{ContactValue, contact_of};

    ghost Value = { ContactValue };

    ghost view = { λ c. contact_of c.meeting };
}

impl Contact {
    pub(crate) fn send(chan: u32, bits: Vec<Bit>) -> Contact
        ensures { result ≡ sends chan bits.items }
    {
        Contact {
            meeting: Meeting::Sends {
                chan,
                site: Site::new(bits),
            },
        }
    }

    pub(crate) fn take(chan: u32, node: u32) -> Contact
        ensures { result ≡ takes chan node }
    {
        Contact {
            meeting: Meeting::Takes { chan, node },
        }
    }

    pub(crate) fn write(var: u32, bits: Vec<Bit>) -> Contact
        ensures { result ≡ writes var bits.items }
    {
        Contact {
            meeting: Meeting::Writes {
                var,
                site: Site::new(bits),
            },
        }
    }
}

/// The rails of a bit at the sites that are high for this value.
pub(crate) fn rails_at(
    alloc: Global,
    sites: &[Site],
    bit: usize,
    one: bool,
) -> Result<Vec<u32>, AllocError>
    ensures { IfOk result (λ rails. rails.items
        ≡ map (λ (site : List Pair). rail_in one (pair_of site bit)) sites.now) }
{
    let mut rails = Vec::new(alloc);
    for site in sites {
        rails.push(site.rail(bit, one))?;
    }
    Ok(rails)
}
