//! Puts a buffer on a channel.

ghost use Rattle.std.specs.Prelude.{◌≡◌, ◌++◌, [], ◌∷◌, false, map, IfOk, option_map, unwrap_or};
ghost use Rattle.std.specs.Bool.{Decides};
ghost use Rattle.chp_syntax.specs.declared.tree.DeclKind.TheVariants as declares;
ghost use Rattle.chp_syntax.specs.Shape.{IsShaped};
ghost use Rattle.chp_syntax.specs.View.{program_tree as tree_of, statement_of};
ghost use Rattle.width_check.specs.Accepted.{IsAccepted};
ghost use Rattle.width_check.specs.Form.{channel_number, typed_form};
ghost use Rattle.width_check.specs.Places.{declaration, declared_width};
ghost use Rattle.slack_buffer.specs.Buffers.{buffered, BufferKeeps};
ghost use Rattle.slack_buffer.specs.BufferedTrees.{IsInnerChannel, is_chan, made_name, made_decl, rerouted_statement, buffer_statement, HasBuffer};

use crate::copy::{copied_decls, rerouted};
use crate::names::{BufferNames, free_names};
use chp_base::{Name, Span};
use chp_syntax::{Decl, DeclKind, Expr, Ident, Program, Stmt};
use std::alloc::{AllocError, Global};

/// The span of what is generated: it is in no text.
const NOWHERE: Span = Span { from: 0, to: 0 };

fn made_name(name: &Name) -> Result<Ident, AllocError>
    ensures { IfOk result (λ made. made ≡ made_name name.now) }
{
    Ok(Ident {
        name: name.copy()?,
        at: NOWHERE,
    })
}

fn made_decl(kind: DeclKind, name: &Name, width: u64) -> Result<Decl, AllocError>
    ensures { IfOk result (λ made. made ≡ made_decl kind name.now width) }
{
    Ok(Decl {
        kind,
        name: made_name(name)?,
        width,
        width_at: NOWHERE,
        first: 0,
        first_at: NOWHERE,
    })
}

/// `*[X?b; B!b]`
fn buffer_statement(alloc: Global, chan: &Name, names: &BufferNames) -> Result<Stmt, AllocError>
    ensures { IfOk result (λ made. statement_of made ≡ buffer_statement chan.now names.now.copy names.now.slot) }
{
    let mut parts = Vec::new(alloc);
    parts.push(Stmt::Receive {
        chan: made_name(chan)?,
        target: made_name(&names.slot)?,
    })?;
    parts.push(Stmt::Send {
        chan: made_name(&names.copy)?,
        value: Expr::Whole {
            of: made_name(&names.slot)?,
        },
    })?;
    Ok(Stmt::Repeat {
        body: Box::new(alloc, Stmt::Then { parts })?,
    })
}

/// The declared width of a name.
fn width_of(decls: &[Decl], name: &Name) -> u64
    ensures { result ≡ declared_width decls.now name.now }
{
    decls
        .iter()
        .find(|decl| decl.name.name == *name)
        .map_or(0, |decl| decl.width)
}

fn is_chan(kind: DeclKind) -> bool
    ensures { result ≡ is_chan kind }
{
    matches!(kind, DeclKind::Chan)
}

/// The first declaration of the name declares a channel inside of the program.
fn declares_inner(decls: &[Decl], name: &Name) -> bool
    ensures { result ≡ unwrap_or (option_map (λ d. is_chan d.kind) (declaration decls.now name.now)) false }
{
    decls
        .iter()
        .find(|decl| decl.name.name == *name)
        .map_or(false, |decl| is_chan(decl.kind))
}

/// Whether the name is that of a channel inside of the program, as `with_buffer` asks for.
pub fn is_inner_channel(program: &Program, chan: &Name) -> bool
    ensures { Decides result (IsInnerChannel program.now.decls.items chan.now) }
{
    declares_inner(&program.decls, chan)
}

/// The declarations, and behind them those of the buffer on the channel.
fn buffered_decls(
    alloc: Global,
    decls: &[Decl],
    chan: &Name,
    names: &BufferNames,
) -> Result<Vec<Decl>, AllocError>
    ensures { IfOk result (λ made. made.items ≡ decls.now
        ++ made_decl declares.Chan names.now.copy (declared_width decls.now chan.now)
        ∷ made_decl declares.Var names.now.slot (declared_width decls.now chan.now) ∷ []) }
{
    let width = width_of(decls, chan);
    let mut made = copied_decls(alloc, decls)?;
    made.push(made_decl(DeclKind::Chan, &names.copy, width)?)?;
    made.push(made_decl(DeclKind::Var, &names.slot, width)?)?;
    Ok(made)
}

/// The statement of a program that gets a buffer on the channel, and that of the buffer.
fn buffered_parts(
    alloc: Global,
    body: &Stmt,
    chan: &Name,
    names: &BufferNames,
) -> Result<Vec<Stmt>, AllocError>
    ensures { IfOk result (λ parts. map statement_of parts.items
        ≡ rerouted_statement chan.now names.now.copy (statement_of body.now)
        ∷ buffer_statement chan.now names.now.copy names.now.slot ∷ []) }
{
    let mut parts = Vec::new(alloc);
    parts.push(rerouted(alloc, body, chan, &names.copy)?)?;
    parts.push(buffer_statement(alloc, chan, names)?)?;
    Ok(parts)
}

/// The program with a one-place buffer on a channel inside of it, so that a sender there need not wait for its
/// receiver.
///
/// The channel `Bk` and the variable `bk` are declared last, with the channel's width, where k is the least number for
/// which neither name is declared. Each receive on the channel becomes one on `Bk`, and `*[X?bk; Bk!bk]` is put in
/// parallel with the body so changed. (The names and their numbers are our profile's.) Each history after a run of m
/// steps is a prefix of that after 3m rounds with the buffer, and `Bk` lags the channel by its last value at most.
pub fn with_buffer(alloc: Global, program: &Program, chan: &Name) -> Result<Program, AllocError>
    requires shaped { IsShaped (tree_of program.now) }
    requires accepted { IsAccepted (tree_of program.now) }
    requires inner { IsInnerChannel program.now.decls.items chan.now }
    ensures buffer { IfOk result (λ made. HasBuffer (tree_of program.now) chan.now (tree_of made)) }
    // Its typed form is the typed program with the buffer.
    ensures typed { IfOk result (λ made. (has : HasBuffer (tree_of program.now) chan.now (tree_of made)) →
        typed_form (tree_of made) ≡ buffered (typed_form (tree_of program.now))
        (channel_number program.now.decls.items chan.now) has.number) }
    // And this keeps what the program passes.
    ensures keeps { IfOk result (λ made. (has : HasBuffer (tree_of program.now) chan.now (tree_of made)) →
        BufferKeeps (typed_form (tree_of program.now)) (channel_number program.now.decls.items chan.now) has.number) }
    ensures shaped { IfOk result (λ made. IsShaped (tree_of made)) }
    // It is accepted again.
    ensures accepted { IfOk result (λ made. IsAccepted (tree_of made)) }
{
    let (_number, names) = free_names(alloc, &program.decls)?;
    let decls = buffered_decls(alloc, &program.decls, chan, &names)?;
    let parts = buffered_parts(alloc, &program.body, chan, &names)?;
    Ok(Program {
        decls,
        procs: Vec::new(alloc),
        body: Stmt::Beside { parts },
    })
}
