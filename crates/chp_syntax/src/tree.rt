//! The tree of a program, with the spans of its parts in the text.
//!
//! What the parser makes has the shape of the grammar throughout: two parts or more in `Then` and `Beside`, up to 16
//! arms and at least one in `Select`, one part or more in `Join`, one link or more in `Chain`, and just one link where
//! it compares.

use chp_base::{Name, Span};

/// A name and its span in the text.
#[derive(Drop)]
pub struct Ident {
    pub name: Name,
    pub at: Span,
}

/// What a declaration declares: a channel that the environment sends on, one that it receives on, one inside of
/// the program, or a variable.
#[derive(Clone, Copy)]
pub enum DeclKind {
    In,
    Out,
    Chan,
    Var,
}

/// A declaration of a channel or a variable. A first value that isn't written is 0, with the span of the width.
#[derive(Drop)]
pub struct Decl {
    pub kind: DeclKind,
    pub name: Ident,
    pub width: u64,
    pub width_at: Span,
    pub first: u64,
    pub first_at: Span,
}

/// A procedure: `call` of its name does what its body does.
#[derive(Drop)]
pub struct Proc {
    pub name: Ident,
    pub body: Stmt,
}

/// A program: its declarations, in text order, and its statement.
#[derive(Drop)]
pub struct Program {
    pub decls: Vec<Decl>,
    pub procs: Vec<Proc>,
    pub body: Stmt,
}

/// A statement.
#[cycle(statements)]
#[derive(Drop)]
pub enum Stmt {
    /// `skip`
    Skip { at: Span },
    /// `x := e`
    Assign { target: Ident, value: Expr },
    /// `X!e`
    Send { chan: Ident, value: Expr },
    /// `X?v`
    Receive { chan: Ident, target: Ident },
    /// `S; T; ..`
    Then { parts: Vec<Stmt> },
    /// `S, T, ..` and `S || T || ..`
    Beside { parts: Vec<Stmt> },
    /// `[G -> S [] ..]`, and `*[G -> S [] ..]` where `again` is true.
    Select { again: bool, arms: Vec<Arm> },
    /// `*[S]`
    Repeat { body: Box<Stmt> },
    /// `call p`
    Call { of: Ident },
}

/// A guard and the statement that runs if it is true.
#[cycle(statements)]
#[derive(Drop)]
pub struct Arm {
    pub guard: Expr,
    pub body: Stmt,
}

/// An expression. `at` is the span of its own tokens, without parentheses that only enclose it.
#[cycle(expressions)]
#[derive(Drop)]
pub enum Expr {
    /// A number.
    Number {
        value: u64,
        at: Span,
    },
    /// `x`
    Whole {
        of: Ident,
    },
    /// `x[high:low]`
    Slice {
        of: Ident,
        high: u64,
        low: u64,
        at: Span,
    },
    /// `x[place]`
    Bit {
        of: Ident,
        place: u64,
        at: Span,
    },
    /// `{e, ..}`, the last part lowest.
    Join {
        parts: Vec<Expr>,
        at: Span,
    },
    /// `~e`
    Not {
        inner: Box<Expr>,
        at: Span,
    },
    /// `e op e ..`, applied from the left.
    Chain {
        first: Box<Expr>,
        rest: Vec<Link>,
        at: Span,
    },
}

/// An operator and its right side.
#[cycle(expressions)]
#[derive(Drop)]
pub struct Link {
    pub op: Op,
    pub right: Expr,
}

/// The operators between two expressions.
#[derive(Clone, Copy)]
pub enum Op {
    And,
    Or,
    Xor,
    Add,
    Sub,
    Eq,
    Ne,
    Lt,
    Le,
    Gt,
    Ge,
}
