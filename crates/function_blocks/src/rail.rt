//! What drives a node of an expression's circuit.

ghost use Rattle.std.specs.Prelude.{◌≡◌, ◌∷◌, IfOk};
ghost use Rattle.prs_core.specs.Pairs.{no_rules};
ghost use Rattle.function_blocks.specs.Expressions.{following, read_rail};
ghost use Rattle.function_blocks.specs.Functions.{truth, carried_on};
ghost use Rattle.function_blocks.specs.Gates.{gate_rail};
ghost use Rattle.function_blocks.specs.Waves.{rows_of};

use crate::gate::{Function, gate_neutral, gate_rows};
use crate::node::{Bit, NodeGuards, following, read_rail, without_rules};
use std::alloc::{AllocError, Global};
use std::marker::Model;

/// How a node of an expression's circuit is driven.
#[derive(Clone, Copy)]
pub enum RailPattern {
    /// No rule moves the node.
    Undriven,
    /// It follows the request.
    Follow {
        request: u32,
    },
    /// It takes a rail over under the request, and falls with the request.
    Read {
        request: u32,
        rail: u32,
    },
    /// A rail of a gate: it rises on the rows on which the function has this value, and falls where all inputs are low.
    Gate {
        function: Function,
        one: bool,
        left: Bit,
        right: Bit,
        below: Option<Bit>,
    },
}

/// What drives a node of an expression's circuit. Contracts see the node's two guards.
#[derive(Drop)]
pub struct RailDriver {
    pub pattern: RailPattern,
}

impl Model for RailDriver {
    ghost use Rattle.prs_core.specs.Nets.{NodeRules};
    ghost use Rattle.function_blocks.specs.Drivers.{rail_driven};

    ghost Value = { NodeRules };

    ghost view = { λ d. rail_driven d.pattern };
}

impl RailDriver {
    /// No rule moves the node.
    pub fn undriven() -> RailDriver
        ensures { result ≡ no_rules }
    {
        RailDriver {
            pattern: RailPattern::Undriven,
        }
    }

    /// The node follows the request.
    pub fn following(request: u32) -> RailDriver
        ensures { result ≡ following request }
    {
        RailDriver {
            pattern: RailPattern::Follow { request },
        }
    }

    /// A rail that is read under a request.
    pub fn read(request: u32, rail: u32) -> RailDriver
        ensures { result ≡ read_rail request rail }
    {
        RailDriver {
            pattern: RailPattern::Read { request, rail },
        }
    }

    /// The rail of a gate that rises on the rows on which the function has this value.
    pub fn gate(
        function: Function,
        one: bool,
        left: Bit,
        right: Bit,
        below: Option<Bit>,
    ) -> RailDriver
        ensures { result ≡ gate_rail (left ∷ right ∷ carried_on below) (rows_of one (truth function)) }
    {
        RailDriver {
            pattern: RailPattern::Gate {
                function,
                one,
                left,
                right,
                below,
            },
        }
    }

    /// The node's two guards.
    pub fn guards(&self, alloc: Global) -> Result<NodeGuards, AllocError>
        ensures { IfOk result (λ guards. guards ≡ self.now) }
    {
        match &self.pattern {
            RailPattern::Undriven => Ok(without_rules(alloc)),
            RailPattern::Follow { request } => following(alloc, *request),
            RailPattern::Read { request, rail } => read_rail(alloc, *request, *rail),
            RailPattern::Gate {
                function,
                one,
                left,
                right,
                below,
            } => {
                let up = gate_rows(alloc, *function, *one, *left, *right, *below)?;
                let down = gate_neutral(alloc, *left, *right, *below)?;
                Ok(NodeGuards { up, down })
            }
        }
    }
}
