//! The parts of which a program's circuit is made.

ghost use Rattle.std.specs.Prelude.{◌≡◌, map};
ghost use Rattle.handshake_expand.specs.Expansions.{block_value, expansion_of};
ghost use Rattle.handshake_expand.specs.PartTree.{tree_of};

/// What a part is: the root, or the circuit of a statement. `Through` is an assignment through a hidden variable,
/// `Again` a guarded repetition.
#[derive(Clone, Copy)]
pub enum PartKind {
    Root,
    Skip,
    Loop,
    Sequence,
    Parallel,
    Assign,
    Through,
    Send,
    Receive,
    Select,
    Again,
}

/// A part: its request node and its answer node, the first of its nodes and how many it has, including those of the
/// parts in it, and these parts in text order.
#[derive(Drop)]
pub struct Part {
    pub kind: PartKind,
    pub request: u32,
    pub answer: u32,
    pub from: u32,
    pub count: u32,
    pub children: Vec<Part>,
}

/// The nodes of a channel's wires or of a variable, and the first own node of each site: of the sends and receives on
/// the channel, or of the writes of the variable, in text order. A write's first own node is the one that answers it.
#[derive(Drop)]
pub struct Block {
    pub from: u32,
    pub count: u32,
    pub sends: Vec<u32>,
    pub receives: Vec<u32>,
    pub writes: Vec<u32>,
}

/// The parts of a program: a block for each channel and each variable in order of declaration, and the tree of parts.
#[derive(Drop)]
pub struct Parts {
    pub(crate) channels: Vec<Block>,
    pub(crate) vars: Vec<Block>,
    pub(crate) root: Part,
}

impl Parts {
    /// The channels' blocks.
    pub fn channels(&self) -> &[Block]
        ensures { map block_value result.now ≡ (expansion_of self.now).channels }
    {
        &self.channels
    }

    /// The variables' blocks.
    pub fn vars(&self) -> &[Block]
        ensures { map block_value result.now ≡ (expansion_of self.now).vars }
    {
        &self.vars
    }

    /// The root, with the parts of the body below it.
    pub fn root(&self) -> &Part
        ensures { tree_of result.now ≡ (expansion_of self.now).root }
    {
        &self.root
    }
}
