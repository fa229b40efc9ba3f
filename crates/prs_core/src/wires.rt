//! The wires of channels.

ghost use Rattle.std.specs.Prelude.{◌≡◌};

use chp_base::Channel;
use std::marker::Model;

/// The numbers of the nodes that carry a value, seen as the list of them: for each bit i rail t at place 2i and
/// rail f at place 2i + 1.
#[derive(Drop)]
pub struct Rails {
    nodes: Vec<u32>,
}

impl Model for Rails {
    ghost use Rattle.std.specs.Prelude.{List, ℕ};

    ghost Value = { List ℕ };

    ghost view = { λ r. r.nodes.items };
}

impl Rails {
    /// The rails of these numbers.
    pub fn new(nodes: Vec<u32>) -> Rails
        ensures { result ≡ nodes.items }
    {
        Rails { nodes }
    }

    /// The numbers of the nodes.
    pub fn nodes(&self) -> &[u32]
        ensures { result.now ≡ self.now }
    {
        &self.nodes
    }

    /// The vector that the rails were made of.
    pub fn into_vec(self) -> Vec<u32>
        ensures { result.items ≡ self }
    {
        self.nodes
    }
}

/// A channel and its nodes.
#[derive(Drop)]
pub struct Wires {
    pub channel: Channel,
    pub rails: Rails,
    /// The number of the acknowledge's node.
    pub ack: u32,
}
