//! The typed form of a program: numbers in order of declaration for names, and the width on each number. Each `at`
//! is the span of a name alone.

ghost use Rattle.std.specs.Prelude.{◌≡◌};

use crate::declared::{are_declared, are_distinct};
use crate::fitting::is_process;
use chp_base::{Bits, Channel, Name, Span};
use chp_syntax::Op;
use std::marker::Model;

/// A variable: its name, its number of bits from 1 to 64, and its first value, which is below 2 to the width.
#[derive(Drop)]
pub struct Var {
    pub name: Name,
    pub width: u8,
    pub first: u64,
}

/// A statement.
#[cycle(typed_statements)]
#[derive(Drop)]
pub enum TStmt {
    /// `skip`
    Skip,
    /// `x := e`
    Assign {
        var: u32,
        at: Span,
        value: TExpr,
    },
    /// `X!e`
    Send {
        chan: u32,
        at: Span,
        value: TExpr,
    },
    /// `X?v`
    Receive {
        chan: u32,
        chan_at: Span,
        var: u32,
        var_at: Span,
    },
    /// `S; T; ..`
    Then {
        parts: Vec<TStmt>,
    },
    /// `S, T, ..` and `S || T || ..`
    Beside {
        parts: Vec<TStmt>,
    },
    /// `[G -> S [] ..]`, and `*[G -> S [] ..]` where `again` is true.
    Select {
        again: bool,
        arms: Vec<TArm>,
    },
    /// `*[S]`
    Repeat {
        body: Box<TStmt>,
    },
}

/// A guard and the statement that runs if it is true.
#[cycle(typed_statements)]
#[derive(Drop)]
pub struct TArm {
    pub guard: TExpr,
    pub body: TStmt,
}

/// An expression.
#[cycle(typed_expressions)]
#[derive(Drop)]
pub enum TExpr {
    /// A number with its width.
    Number {
        bits: Bits,
    },
    /// The bits from `low` to `high` of a variable.
    Read {
        var: u32,
        high: u8,
        low: u8,
        at: Span,
    },
    /// `{e, ..}`, the last part lowest.
    Join {
        parts: Vec<TExpr>,
    },
    /// `~e`
    Not {
        inner: Box<TExpr>,
    },
    /// `e op e ..`, applied from the left, with the operators `&`, `|`, `^`, `+` and `-`.
    Chain {
        first: Box<TExpr>,
        rest: Vec<TLink>,
    },
    /// `e op e` with one of the comparisons.
    Compare {
        op: Op,
        left: Box<TExpr>,
        right: Box<TExpr>,
    },
}

/// An operator and its right side.
#[cycle(typed_expressions)]
#[derive(Drop)]
pub struct TLink {
    pub op: Op,
    pub right: TExpr,
}

/// A program whose names are numbers: its channels and its variables, each in text order, and its statement. The
/// type's invariant is what the checks establish: no name twice, no number without its declaration, ends of channels
/// on the right side, widths that fit, well-formed expressions, and groups of the grammar's sizes.
#[derive(Drop)]
pub struct Typed {
    channels: Vec<Channel>,
    vars: Vec<Var>,
    body: TStmt,
}

impl Model for Typed {
    ghost use Rattle.width_check.specs.Typed.{TypedValue, typed_value};
    ghost use Rattle.width_check.specs.View.{process_of};
    ghost use Rattle.width_check.specs.Typing.{IsTyped};
    ghost use Rattle.width_check.specs.contracts.typed.TStmt as statement;
    ghost use Rattle.std.specs.Coded.{codes};

    ghost Value = { TypedValue };

    ghost coded = { Prim.hlevel (codes, statement.the_row.coded) };

    ghost view = { λ t. typed_value t.channels.items t.vars.items t.body };

    ghost invariant = { λ t. IsTyped t.channels.items t.vars.items (process_of t.body) };
}

impl Typed {
    ghost use Rattle.std.specs.Prelude.{IfSome, IfNone};
    ghost use Rattle.width_check.specs.Typed.{typed_value};
    ghost use Rattle.width_check.specs.View.{process_of};
    ghost use Rattle.width_check.specs.Typing.{IsTyped};

    /// The program of these parts, or None if they don't meet the type's invariant. So a program can be made without
    /// a text, for example by a generator or a test. Each name is compared with all others.
    pub fn new(channels: Vec<Channel>, vars: Vec<Var>, body: TStmt) -> Option<Typed>
        ensures some { IfSome result (λ t. t ≡ typed_value channels.items vars.items body) }
        ensures none { IfNone result (¬ IsTyped channels.items vars.items (process_of body)) }
    {
        let meets = are_declared(&channels, &vars)
            && are_distinct(&channels, &vars)
            && is_process(&channels, &vars, &body);
        if meets {
            Some(Typed {
                channels,
                vars,
                body,
            })
        } else {
            // One call, where the end of the block would let go of it variant by variant.
            drop(body);
            None
        }
    }

    /// The program of these parts, which meet the type's invariant.
    pub(crate) fn made(channels: Vec<Channel>, vars: Vec<Var>, body: TStmt) -> Typed
        requires { IsTyped channels.items vars.items (process_of body) }
        ensures { result ≡ typed_value channels.items vars.items body }
    {
        Typed {
            channels,
            vars,
            body,
        }
    }

    /// The channels in order of declaration.
    pub fn channels(&self) -> &[Channel]
        ensures { result.now ≡ self.now.channels }
    {
        &self.channels
    }

    /// The variables in order of declaration.
    pub fn vars(&self) -> &[Var]
        ensures { result.now ≡ self.now.vars }
    {
        &self.vars
    }

    /// The statement that the program runs.
    pub fn body(&self) -> &TStmt
        ensures body { result.now ≡ self.now.body }
        ensures typed { IsTyped self.now.channels self.now.vars (process_of self.now.body) }
    {
        &self.body
    }
}
