//! Which token is at an index of the list, and the reading of single tokens.

ghost use Rattle.std.specs.Prelude.{◌≡◌, ℕ, ◌≤◌, ◌<◌, ◌+◌, List, length, drop, IfOk, IfErr, OnOk, IsTrue, ◌↔◌, Some, None};
ghost use Rattle.chp_syntax.specs.Parts.{sees, here, IsKind, kind_read, name_of, numeral_value, WhenFault, primary_front, atom_front, action_front, decl_front, acts, begins_par, Good, Bad, Exactly, AName, ANumber, Anything, level_operator, group_mark};
ghost use Rattle.chp_syntax.specs.Grammar.{comparison_of, name};
ghost use Rattle.chp_syntax.specs.declared.token.TokenKind.TheVariants.{Sign, Word};

use crate::token::{Key, Mark, Token, TokenKind};
use crate::tree::{DeclKind, Ident, Op};
use chp_base::Span;
use std::alloc::{AllocError, AllocFailed};

/// Why reading stopped: a fault, at the cursor's position, or out of memory.
#[derive(Drop)]
pub enum Stop {
    Fault,
    NoMemory(AllocError),
}

impl From<AllocError> for Stop {
    ghost use Rattle.chp_syntax.specs.declared.parser.sight.Stop.TheVariants.{NoMemory};

    ghost from_gives = { λ e t. t ≡ NoMemory e };

    fn from(error: AllocError) -> Stop {
        Stop::NoMemory(error)
    }
}

impl<T: Drop> From<AllocFailed<T>> for Stop {
    ghost use Rattle.std.specs.Prelude.{alloc_error};
    ghost use Rattle.chp_syntax.specs.declared.parser.sight.Stop.TheVariants.{NoMemory};

    ghost from_gives = { λ e t. t ≡ NoMemory alloc_error };

    fn from(error: AllocFailed<T>) -> Stop {
        Stop::NoMemory(AllocError::from(error))
    }
}

/// A number and its span in the text.
#[derive(Clone, Copy)]
pub struct Numeral {
    pub value: u64,
    pub at: Span,
}

/// What the innermost part of an expression begins with.
#[derive(Clone, Copy)]
pub enum PrimaryFront {
    Number,
    Name,
    Curly,
    Round,
    Other,
}

/// The levels of operators that are applied from the left, the tightest first.
#[derive(Clone, Copy)]
pub enum Level {
    Sum,
    Conjunction,
    Exclusive,
    Disjunction,
}

/// The levels of groups of statements, the tightest first.
#[derive(Clone, Copy)]
pub enum Group {
    Both,
    Seq,
    Par,
}

/// What a statement begins with.
#[derive(Clone, Copy)]
pub enum AtomFront {
    Skip,
    Call,
    Name,
    Round,
    Star,
    Square,
    Other,
}

/// What follows the name that a statement begins with.
#[derive(Clone, Copy)]
pub enum ActionFront {
    Assign,
    Send,
    Receive,
    Other,
}

/// What a declaration begins with.
#[derive(Clone, Copy)]
pub enum DeclFront {
    Channel(DeclKind),
    Variable,
    Procedure,
    Other,
}

/// The tokens from an index on.
fn behind(tokens: &[Token], at: usize) -> &[Token]
    requires { at ≤ length tokens.now }
    ensures { result.now ≡ drop at tokens.now }
{
    &tokens[at..]
}

fn front_mark(tokens: &[Token], mark: Mark) -> bool
    ensures { IsTrue result ↔ IsKind (Sign mark) (sees tokens.now) }
{
    match tokens {
        [] => false,
        [first, ..] => match first.kind {
            TokenKind::Sign(found) => found == mark,
            TokenKind::Word(_) => false,
            TokenKind::Ident(_) => false,
            TokenKind::Number(_) => false,
        },
    }
}

pub fn mark_at(tokens: &[Token], at: usize, mark: Mark) -> bool
    requires { at ≤ length tokens.now }
    ensures { IsTrue result ↔ IsKind (Sign mark) (sees (drop at tokens.now)) }
{
    front_mark(behind(tokens, at), mark)
}

/// Whether the sign between the members of such a group is here.
pub fn continues(tokens: &[Token], at: usize, group: Group) -> bool
    requires { at ≤ length tokens.now }
    ensures { IsTrue result ↔ IsKind (Sign (group_mark group)) (sees (drop at tokens.now)) }
{
    let sign = match group {
        Group::Both => Mark::Comma,
        Group::Seq => Mark::Semicolon,
        Group::Par => Mark::BarBar,
    };
    mark_at(tokens, at, sign)
}

fn front_word(tokens: &[Token], key: Key) -> bool
    ensures { IsTrue result ↔ IsKind (Word key) (sees tokens.now) }
{
    match tokens {
        [] => false,
        [first, ..] => match first.kind {
            TokenKind::Sign(_) => false,
            TokenKind::Word(found) => found == key,
            TokenKind::Ident(_) => false,
            TokenKind::Number(_) => false,
        },
    }
}

pub fn word_at(tokens: &[Token], at: usize, key: Key) -> bool
    requires { at ≤ length tokens.now }
    ensures { IsTrue result ↔ IsKind (Word key) (sees (drop at tokens.now)) }
{
    front_word(behind(tokens, at), key)
}

/// The sign as an operator of this level.
fn operator(mark: Mark, level: Level) -> Option<Op>
    ensures { result ≡ level_operator level (Sign mark) }
{
    match level {
        Level::Sum => match mark {
            Mark::Plus => Some(Op::Add),
            Mark::Minus => Some(Op::Sub),
            _ => None,
        },
        Level::Conjunction => match mark {
            Mark::Amp => Some(Op::And),
            _ => None,
        },
        Level::Exclusive => match mark {
            Mark::Caret => Some(Op::Xor),
            _ => None,
        },
        Level::Disjunction => match mark {
            Mark::Bar => Some(Op::Or),
            _ => None,
        },
    }
}

fn front_operator(tokens: &[Token], level: Level) -> Option<Op>
    ensures { result ≡ kind_read (level_operator level) (sees tokens.now) }
{
    match tokens {
        [] => None,
        [first, ..] => match first.kind {
            TokenKind::Sign(mark) => operator(mark, level),
            TokenKind::Word(_) => None,
            TokenKind::Ident(_) => None,
            TokenKind::Number(_) => None,
        },
    }
}

/// The operator of this level, if there is one here.
pub fn operator_at(tokens: &[Token], at: usize, level: Level) -> Option<Op>
    requires { at ≤ length tokens.now }
    ensures { result ≡ kind_read (level_operator level) (sees (drop at tokens.now)) }
{
    front_operator(behind(tokens, at), level)
}

fn front_comparison(tokens: &[Token]) -> Option<Op>
    ensures { result ≡ kind_read comparison_of (sees tokens.now) }
{
    match tokens {
        [] => None,
        [first, ..] => match first.kind {
            TokenKind::Sign(mark) => match mark {
                Mark::Equal => Some(Op::Eq),
                Mark::NotEqual => Some(Op::Ne),
                Mark::Less => Some(Op::Lt),
                Mark::AtMost => Some(Op::Le),
                Mark::Greater => Some(Op::Gt),
                Mark::AtLeast => Some(Op::Ge),
                _ => None,
            },
            TokenKind::Word(_) => None,
            TokenKind::Ident(_) => None,
            TokenKind::Number(_) => None,
        },
    }
}

pub fn comparison_at(tokens: &[Token], at: usize) -> Option<Op>
    requires { at ≤ length tokens.now }
    ensures { result ≡ kind_read comparison_of (sees (drop at tokens.now)) }
{
    front_comparison(behind(tokens, at))
}

fn front_number(tokens: &[Token]) -> Option<u64>
    ensures { result ≡ kind_read numeral_value (sees tokens.now) }
{
    match tokens {
        [] => None,
        [first, ..] => match first.kind {
            TokenKind::Sign(_) => None,
            TokenKind::Word(_) => None,
            TokenKind::Ident(_) => None,
            TokenKind::Number(value) => Some(value),
        },
    }
}

pub fn number_at(tokens: &[Token], at: usize) -> Option<u64>
    requires { at ≤ length tokens.now }
    ensures { result ≡ kind_read numeral_value (sees (drop at tokens.now)) }
{
    front_number(behind(tokens, at))
}

fn front_primary(tokens: &[Token]) -> PrimaryFront
    ensures { result ≡ primary_front (sees tokens.now) }
{
    match tokens {
        [] => PrimaryFront::Other,
        [first, ..] => match first.kind {
            TokenKind::Sign(mark) => match mark {
                Mark::OpenCurly => PrimaryFront::Curly,
                Mark::OpenRound => PrimaryFront::Round,
                _ => PrimaryFront::Other,
            },
            TokenKind::Word(_) => PrimaryFront::Other,
            TokenKind::Ident(_) => PrimaryFront::Name,
            TokenKind::Number(_) => PrimaryFront::Number,
        },
    }
}

pub fn primary_at(tokens: &[Token], at: usize) -> PrimaryFront
    requires { at ≤ length tokens.now }
    ensures { result ≡ primary_front (sees (drop at tokens.now)) }
{
    front_primary(behind(tokens, at))
}

fn front_atom(tokens: &[Token]) -> AtomFront
    ensures { result ≡ atom_front (sees tokens.now) }
{
    match tokens {
        [] => AtomFront::Other,
        [first, ..] => match first.kind {
            TokenKind::Sign(mark) => match mark {
                Mark::OpenRound => AtomFront::Round,
                Mark::Star => AtomFront::Star,
                Mark::OpenSquare => AtomFront::Square,
                _ => AtomFront::Other,
            },
            TokenKind::Word(key) => match key {
                Key::Skip => AtomFront::Skip,
                Key::Call => AtomFront::Call,
                _ => AtomFront::Other,
            },
            TokenKind::Ident(_) => AtomFront::Name,
            TokenKind::Number(_) => AtomFront::Other,
        },
    }
}

pub fn atom_at(tokens: &[Token], at: usize) -> AtomFront
    requires { at ≤ length tokens.now }
    ensures { result ≡ atom_front (sees (drop at tokens.now)) }
{
    front_atom(behind(tokens, at))
}

fn front_action(tokens: &[Token]) -> ActionFront
    ensures { result ≡ action_front (sees tokens.now) }
{
    match tokens {
        [] => ActionFront::Other,
        [first, ..] => match first.kind {
            TokenKind::Sign(mark) => match mark {
                Mark::Becomes => ActionFront::Assign,
                Mark::Bang => ActionFront::Send,
                Mark::Question => ActionFront::Receive,
                _ => ActionFront::Other,
            },
            TokenKind::Word(_) => ActionFront::Other,
            TokenKind::Ident(_) => ActionFront::Other,
            TokenKind::Number(_) => ActionFront::Other,
        },
    }
}

pub fn action_at(tokens: &[Token], at: usize) -> ActionFront
    requires { at ≤ length tokens.now }
    ensures { result ≡ action_front (sees (drop at tokens.now)) }
{
    front_action(behind(tokens, at))
}

fn front_decl(tokens: &[Token]) -> DeclFront
    ensures { result ≡ decl_front (sees tokens.now) }
{
    match tokens {
        [] => DeclFront::Other,
        [first, ..] => match first.kind {
            TokenKind::Sign(_) => DeclFront::Other,
            TokenKind::Word(key) => match key {
                Key::In => DeclFront::Channel(DeclKind::In),
                Key::Out => DeclFront::Channel(DeclKind::Out),
                Key::Chan => DeclFront::Channel(DeclKind::Chan),
                Key::Var => DeclFront::Variable,
                Key::Proc => DeclFront::Procedure,
                _ => DeclFront::Other,
            },
            TokenKind::Ident(_) => DeclFront::Other,
            TokenKind::Number(_) => DeclFront::Other,
        },
    }
}

pub fn decl_at(tokens: &[Token], at: usize) -> DeclFront
    requires { at ≤ length tokens.now }
    ensures { result ≡ decl_front (sees (drop at tokens.now)) }
{
    front_decl(behind(tokens, at))
}

fn front_span(tokens: &[Token]) -> Span
    ensures { result ≡ here tokens.now }
{
    match tokens {
        [] => Span { from: 0, to: 0 },
        [first, ..] => first.at,
    }
}

pub fn span_at(tokens: &[Token], at: usize) -> Span
    requires { at ≤ length tokens.now }
    ensures { result ≡ here (drop at tokens.now) }
{
    front_span(behind(tokens, at))
}

fn front_name(tokens: &[Token]) -> Result<Ident, Stop>
    ensures there { IfOk result (λ i. sees tokens.now ≡ Some (name i.name i.at)) }
    ensures missing { IfErr result (λ e. WhenFault e (kind_read name_of (sees tokens.now) ≡ None)) }
{
    match tokens {
        [] => Err(Stop::Fault),
        [first, ..] => match &first.kind {
            TokenKind::Ident(name) => Ok(Ident {
                name: name.copy()?,
                at: first.at,
            }),
            TokenKind::Sign(_) => Err(Stop::Fault),
            TokenKind::Word(_) => Err(Stop::Fault),
            TokenKind::Number(_) => Err(Stop::Fault),
        },
    }
}

fn acts(tokens: &[Token], at: usize) -> bool
    requires { at ≤ length tokens.now }
    ensures { result ≡ acts (action_front (sees (drop at tokens.now))) }
{
    match action_at(tokens, at) {
        ActionFront::Assign => true,
        ActionFront::Send => true,
        ActionFront::Receive => true,
        ActionFront::Other => false,
    }
}

/// Whether the tokens from here on can only begin a statement, and not an arm.
pub fn begins_statement(tokens: &[Token], at: usize) -> bool
    requires { at ≤ length tokens.now }
    ensures { result ≡ begins_par (drop at tokens.now) }
{
    let mut at = at;
    while mark_at(tokens, at, Mark::OpenRound) {
        at += 1;
    }
    match atom_at(tokens, at) {
        AtomFront::Name => acts(tokens, at + 1),
        AtomFront::Skip => true,
        AtomFront::Call => true,
        AtomFront::Star => true,
        AtomFront::Square => true,
        AtomFront::Round => false,
        AtomFront::Other => false,
    }
}

/// Reads this sign.
pub fn take_mark(tokens: &[Token], at: &mut usize, mark: Mark) -> Result<Span, Stop>
    requires { at.old ≤ length tokens.now }
    ensures within { at.new ≤ length tokens.now }
    ensures moved { OnOk result (at.old < at.new) }
    ensures good { IfOk result (Good (Exactly (Sign mark)) Anything (drop at.old tokens.now) (drop at.new tokens.now)) }
    ensures bad { IfErr result (λ e.
        WhenFault e (Bad (Exactly (Sign mark)) Anything (drop at.old tokens.now) (drop at.new tokens.now))) }
{
    if !mark_at(tokens, *at, mark) {
        return Err(Stop::Fault);
    }
    let span = span_at(tokens, *at);
    *at += 1;
    Ok(span)
}

/// Reads this keyword.
pub fn take_word(tokens: &[Token], at: &mut usize, key: Key) -> Result<Span, Stop>
    requires { at.old ≤ length tokens.now }
    ensures within { at.new ≤ length tokens.now }
    ensures moved { OnOk result (at.old < at.new) }
    ensures good { IfOk result (Good (Exactly (Word key)) Anything (drop at.old tokens.now) (drop at.new tokens.now)) }
    ensures bad { IfErr result (λ e.
        WhenFault e (Bad (Exactly (Word key)) Anything (drop at.old tokens.now) (drop at.new tokens.now))) }
{
    if !word_at(tokens, *at, key) {
        return Err(Stop::Fault);
    }
    let span = span_at(tokens, *at);
    *at += 1;
    Ok(span)
}

/// Reads a number.
pub fn take_number(tokens: &[Token], at: &mut usize) -> Result<Numeral, Stop>
    requires { at.old ≤ length tokens.now }
    ensures within { at.new ≤ length tokens.now }
    ensures moved { OnOk result (at.old < at.new) }
    ensures good { IfOk result (Good ANumber Anything (drop at.old tokens.now) (drop at.new tokens.now)) }
    ensures bad { IfErr result (λ e.
        WhenFault e (Bad ANumber Anything (drop at.old tokens.now) (drop at.new tokens.now))) }
{
    let Some(value) = number_at(tokens, *at) else {
        return Err(Stop::Fault);
    };
    let span = span_at(tokens, *at);
    *at += 1;
    Ok(Numeral { value, at: span })
}

/// Reads a name.
pub fn take_name(tokens: &[Token], at: &mut usize) -> Result<Ident, Stop>
    requires { at.old ≤ length tokens.now }
    ensures within { at.new ≤ length tokens.now }
    ensures moved { OnOk result (at.old < at.new) }
    ensures good { IfOk result (Good AName Anything (drop at.old tokens.now) (drop at.new tokens.now)) }
    ensures bad { IfErr result (λ e.
        WhenFault e (Bad AName Anything (drop at.old tokens.now) (drop at.new tokens.now))) }
{
    let name = front_name(behind(tokens, *at))?;
    *at += 1;
    Ok(name)
}
