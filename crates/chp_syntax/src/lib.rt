//! The language: tokens, grammar and the tree of a program.
#![tactic(auto)]

pub mod laws;
mod limits;
mod parser;
mod scan;
mod token;
mod tree;

pub use parser::parse;
pub use scan::tokens;
pub use token::{Key, Mark, Token, TokenKind};
pub use tree::{Arm, Decl, DeclKind, Expr, Ident, Link, Op, Proc, Program, Stmt};
