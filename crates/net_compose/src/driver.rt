//! What drives a node.

ghost use Rattle.std.specs.Prelude.{◌≡◌, ◌∷◌, [], ◌++◌, OnOk};
ghost use Rattle.prs_core.specs.Pairs.{no_rules, or_of};
ghost use Rattle.prs_core.specs.Sites.{site_answer};
ghost use Rattle.reset_net.specs.Resets.{has_rules};
ghost use Rattle.cell_sequence.specs.Sequence.{q_child, q_latch, q_next, skip_answer};
ghost use Rattle.cell_parallel.specs.Trees.{c_element};
ghost use Rattle.cell_variable.specs.Variables.{kept_rail, bit_written};
ghost use Rattle.cell_select.specs.Selections.{joined_answer, turn_request};
ghost use Rattle.function_blocks.specs.Drivers.{rail_driven};
ghost use Rattle.net_compose.specs.Drivers.{wanted_latch, let_go};

use function_blocks::{Bit, RailDriver, RailPattern};
use std::alloc::AllocError;
use std::marker::Model;

/// How a node is driven, and by which nodes.
#[derive(Drop)]
pub enum Pattern {
    /// It is a node as those of expressions are: no rule moves it, it follows a request, it is read, or it is a rail of
    /// a gate.
    Rail {
        rail: RailPattern,
    },
    /// It rises under the request while the other node is low, and falls once that is high.
    Until {
        request: u32,
        over: u32,
    },
    /// It is set by one node, and falls once the other one is low.
    Latch {
        set: u32,
        held: u32,
    },
    /// It rises where the latch is high and the answer low, and falls with the latch.
    Behind {
        latch: u32,
        answer: u32,
    },
    /// It answers the request with the acknowledge.
    Site {
        request: u32,
        ack: u32,
    },
    /// It rises where both are high, and falls where both are low.
    Both {
        left: u32,
        right: u32,
    },
    /// It is set while the other rail of its bit is low, and falls at the reset.
    Kept {
        set: u32,
        other: u32,
        reset: u32,
    },
    /// It says that a bit has the value that is written.
    Written {
        x: Bit,
        w: Bit,
    },
    /// It is high once one of the inputs is; with no inputs no rule moves it.
    Any {
        inputs: Vec<u32>,
    },
    /// It rises with an answer, and falls where all of them are low and so is the other node.
    Joined {
        any: u32,
        answers: Vec<u32>,
    },
    /// It rises where all of these are high, and falls with the request.
    Wanted {
        request: u32,
        wanted: Vec<u32>,
    },
    /// It rises after a latch once all of the rails are low, and falls once the other node is.
    Started {
        latch: u32,
        until: u32,
        rails: Vec<u32>,
    },
    /// The request of a turn: it falls with the whole request, or once a branch has answered.
    Turn {
        request: u32,
        joined: u32,
    },
}

/// What drives a node. Contracts see the node's two guards.
#[derive(Drop)]
pub struct Driver {
    pub pattern: Pattern,
}

impl Model for Driver {
    ghost use Rattle.prs_core.specs.Nets.{NodeRules};
    ghost use Rattle.net_compose.specs.Drivers.{driven};

    ghost Value = { NodeRules };

    ghost view = { λ d. driven d.pattern };
}

/// Whether a rule moves a node of an expression.
fn moves(rail: &RailPattern) -> bool
    ensures { result ≡ has_rules (rail_driven rail.now).up (rail_driven rail.now).down }
{
    match rail {
        RailPattern::Undriven => false,
        RailPattern::Follow { .. } => true,
        RailPattern::Read { .. } => true,
        RailPattern::Gate { .. } => true,
    }
}

impl Driver {
    /// Whether a rule moves the node.
    pub(crate) fn has_rules(&self) -> bool
        ensures { result ≡ has_rules self.now.up self.now.down }
    {
        match &self.pattern {
            Pattern::Rail { rail } => moves(rail),
            Pattern::Any { inputs } => !inputs.is_empty(),
            Pattern::Until { .. } => true,
            Pattern::Latch { .. } => true,
            Pattern::Behind { .. } => true,
            Pattern::Site { .. } => true,
            Pattern::Both { .. } => true,
            Pattern::Kept { .. } => true,
            Pattern::Written { .. } => true,
            Pattern::Joined { .. } => true,
            Pattern::Wanted { .. } => true,
            Pattern::Started { .. } => true,
            Pattern::Turn { .. } => true,
        }
    }

    /// A node of an expression.
    pub(crate) fn rail(rail: RailDriver) -> Driver
        ensures { result ≡ rail }
    {
        Driver {
            pattern: Pattern::Rail { rail: rail.pattern },
        }
    }

    /// No rule moves the node.
    pub fn undriven() -> Driver
        ensures { result ≡ no_rules }
    {
        Driver::rail(RailDriver::undriven())
    }

    /// The answer of a skip.
    pub(crate) fn skip(request: u32) -> Driver
        ensures { result ≡ skip_answer request }
    {
        Driver::rail(RailDriver::following(request))
    }

    /// The request of a child that runs under the request until the latch is up; so are the request of a loop's body,
    /// until that has answered, and that of guards, until one of them is latched.
    pub fn child(request: u32, latch: u32) -> Driver
        ensures { result ≡ q_child request latch }
    {
        Driver {
            pattern: Pattern::Until {
                request,
                over: latch,
            },
        }
    }

    /// The latch of a Q-element.
    pub fn latch(request: u32, child_answer: u32) -> Driver
        ensures { result ≡ q_latch request child_answer }
    {
        Driver {
            pattern: Pattern::Latch {
                set: child_answer,
                held: request,
            },
        }
    }

    /// The next request of a Q-element.
    pub fn next(latch: u32, child_answer: u32) -> Driver
        ensures { result ≡ q_next latch child_answer }
    {
        Driver {
            pattern: Pattern::Behind {
                latch,
                answer: child_answer,
            },
        }
    }

    /// The answer of a site: of a send, a receive or a write.
    pub fn site(request: u32, ack: u32) -> Driver
        ensures { result ≡ site_answer request ack }
    {
        Driver {
            pattern: Pattern::Site { request, ack },
        }
    }

    /// A C-element; so is a rail that a receive takes over under its request.
    pub(crate) fn both(left: u32, right: u32) -> Driver
        ensures { result ≡ c_element left right }
    {
        Driver {
            pattern: Pattern::Both { left, right },
        }
    }

    /// A rail of a variable's bit.
    pub(crate) fn kept(set: u32, other: u32, reset: u32) -> Driver
        ensures { result ≡ kept_rail set other reset }
    {
        Driver {
            pattern: Pattern::Kept { set, other, reset },
        }
    }

    /// The node that says that a variable's bit is written.
    pub(crate) fn written(x: Bit, w: Bit) -> Driver
        ensures { result ≡ bit_written (record { x = x; w = w; written = 0 }) }
    {
        Driver {
            pattern: Pattern::Written { x, w },
        }
    }

    /// The OR of the inputs.
    pub fn any(inputs: Vec<u32>) -> Driver
        ensures { result ≡ or_of inputs.items }
    {
        Driver {
            pattern: Pattern::Any { inputs },
        }
    }

    /// The joined answer of branches.
    pub(crate) fn joined(any: u32, answers: Vec<u32>) -> Driver
        ensures { result ≡ joined_answer any answers.items }
    {
        Driver {
            pattern: Pattern::Joined { any, answers },
        }
    }

    /// The latch of a guard, or of the end of a repetition.
    pub(crate) fn wanted(request: u32, wanted: Vec<u32>) -> Driver
        ensures { result ≡ wanted_latch request wanted.items }
    {
        Driver {
            pattern: Pattern::Wanted { request, wanted },
        }
    }

    /// The start of a branch, or the answer of a repetition.
    pub(crate) fn started(latch: u32, until: u32, rails: Vec<u32>) -> Driver
        ensures { result ≡ let_go latch until rails.items }
    {
        Driver {
            pattern: Pattern::Started {
                latch,
                until,
                rails,
            },
        }
    }

    /// The request of a turn of a repetition.
    pub(crate) fn turn(request: u32, joined: u32) -> Driver
        ensures { result ≡ turn_request request joined }
    {
        Driver {
            pattern: Pattern::Turn { request, joined },
        }
    }
}

/// Adds one driver.
pub fn add(driver: Driver, drivers: &mut Vec<Driver>) -> Result<(), AllocError>
    ensures { OnOk result (drivers.new.items ≡ drivers.old.items ++ driver ∷ []) }
{
    drivers.push(driver)?;
    Ok(())
}
