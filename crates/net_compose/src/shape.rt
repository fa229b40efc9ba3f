//! The forms of guards.

ghost use Rattle.std.specs.Prelude.{◌≡◌};
ghost use Rattle.net_compose.specs.Shapes.{listed, up_rail_shape, down_rail_shape, up_shape, down_shape, shape_of};

use crate::driver::Pattern;
use function_blocks::{Bit, Function, RailPattern};
use prs_core::{Literal, high, low};

/// The form of a guard. The nodes of a list, where it has one, are given separately.
#[derive(Clone, Copy)]
pub enum Shape {
    /// It has no terms.
    Never,
    /// A literal alone.
    One {
        literal: Literal,
    },
    /// Two literals together.
    Two {
        left: Literal,
        right: Literal,
    },
    /// One of two literals.
    Either {
        left: Literal,
        right: Literal,
    },
    /// Two bits have the same value.
    Alike {
        left: Bit,
        right: Bit,
    },
    /// One of the listed nodes is high.
    Each,
    /// All listed nodes are high.
    Highs,
    /// All listed nodes are low.
    Lows,
    /// A literal, and all listed nodes low.
    With {
        literal: Literal,
    },
    /// The inputs make up a row of the truth table on which the function has this value.
    Rows {
        function: Function,
        one: bool,
        left: Bit,
        right: Bit,
        below: Option<Bit>,
    },
    /// All inputs are neutral.
    Neutral {
        left: Bit,
        right: Bit,
        below: Option<Bit>,
    },
}

/// The form of the guard by which a node of an expression rises.
fn up_rail(rail: &RailPattern) -> Shape
    ensures { result ≡ up_rail_shape rail.now }
{
    match rail {
        RailPattern::Undriven => Shape::Never,
        RailPattern::Follow { request } => Shape::One {
            literal: high(*request),
        },
        RailPattern::Read { request, rail } => Shape::Two {
            left: high(*request),
            right: high(*rail),
        },
        RailPattern::Gate {
            function,
            one,
            left,
            right,
            below,
        } => Shape::Rows {
            function: *function,
            one: *one,
            left: *left,
            right: *right,
            below: *below,
        },
    }
}

/// The form of the guard by which a node of an expression falls.
fn down_rail(rail: &RailPattern) -> Shape
    ensures { result ≡ down_rail_shape rail.now }
{
    match rail {
        RailPattern::Undriven => Shape::Never,
        RailPattern::Follow { request } => Shape::One {
            literal: low(*request),
        },
        RailPattern::Read { request, .. } => Shape::One {
            literal: low(*request),
        },
        RailPattern::Gate {
            left,
            right,
            below,
            ..
        } => Shape::Neutral {
            left: *left,
            right: *right,
            below: *below,
        },
    }
}

impl Pattern {
    /// The nodes of the driver's list, none where it has none.
    pub fn listed(&self) -> &[u32]
        ensures { result.now ≡ listed self.now }
    {
        match self {
            Pattern::Any { inputs } => inputs.as_slice(),
            Pattern::Joined { answers, .. } => answers.as_slice(),
            Pattern::Wanted { wanted, .. } => wanted.as_slice(),
            Pattern::Started { rails, .. } => rails.as_slice(),
            Pattern::Rail { .. } => &[],
            Pattern::Until { .. } => &[],
            Pattern::Latch { .. } => &[],
            Pattern::Behind { .. } => &[],
            Pattern::Site { .. } => &[],
            Pattern::Both { .. } => &[],
            Pattern::Kept { .. } => &[],
            Pattern::Written { .. } => &[],
            Pattern::Turn { .. } => &[],
        }
    }

    /// The form of the guard by which the node rises.
    pub(crate) fn up(&self) -> Shape
        ensures { result ≡ up_shape self.now }
    {
        match self {
            Pattern::Rail { rail } => up_rail(rail),
            Pattern::Until { request, over } => Shape::Two {
                left: high(*request),
                right: low(*over),
            },
            Pattern::Latch { set, .. } => Shape::One {
                literal: high(*set),
            },
            Pattern::Behind { latch, answer } => Shape::Two {
                left: high(*latch),
                right: low(*answer),
            },
            Pattern::Site { request, ack } => Shape::Two {
                left: high(*request),
                right: high(*ack),
            },
            Pattern::Both { left, right } => Shape::Two {
                left: high(*left),
                right: high(*right),
            },
            Pattern::Kept { set, other, .. } => Shape::Two {
                left: high(*set),
                right: low(*other),
            },
            Pattern::Written { x, w } => Shape::Alike {
                left: *w,
                right: *x,
            },
            Pattern::Any { .. } => Shape::Each,
            Pattern::Joined { .. } => Shape::Each,
            Pattern::Wanted { .. } => Shape::Highs,
            Pattern::Started { latch, .. } => Shape::With {
                literal: high(*latch),
            },
            Pattern::Turn { request, joined } => Shape::Two {
                left: high(*request),
                right: low(*joined),
            },
        }
    }

    /// The form of the guard by which the node falls.
    pub(crate) fn down(&self) -> Shape
        ensures { result ≡ down_shape self.now }
    {
        match self {
            Pattern::Rail { rail } => down_rail(rail),
            Pattern::Until { over, .. } => Shape::One {
                literal: high(*over),
            },
            Pattern::Latch { held, .. } => Shape::One {
                literal: low(*held),
            },
            Pattern::Behind { latch, .. } => Shape::One {
                literal: low(*latch),
            },
            Pattern::Site { ack, .. } => Shape::One { literal: low(*ack) },
            Pattern::Both { left, right } => Shape::Two {
                left: low(*left),
                right: low(*right),
            },
            Pattern::Kept { reset, .. } => Shape::One {
                literal: high(*reset),
            },
            Pattern::Written { w, .. } => Shape::Two {
                left: low(w.t),
                right: low(w.f),
            },
            Pattern::Any { inputs } => {
                if inputs.is_empty() {
                    Shape::Never
                } else {
                    Shape::Lows
                }
            }
            Pattern::Joined { any, .. } => Shape::With { literal: low(*any) },
            Pattern::Wanted { request, .. } => Shape::One {
                literal: low(*request),
            },
            Pattern::Started { until, .. } => Shape::One {
                literal: low(*until),
            },
            Pattern::Turn { request, joined } => Shape::Either {
                left: high(*joined),
                right: low(*request),
            },
        }
    }

    /// The form of the guard by which the node rises, or falls.
    pub fn shape(&self, up: bool) -> Shape
        ensures { result ≡ shape_of up self.now }
    {
        if up { self.up() } else { self.down() }
    }
}
