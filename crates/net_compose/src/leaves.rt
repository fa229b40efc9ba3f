//! The drivers of statements that contain no other statement.

ghost use Rattle.std.specs.Prelude.{◌≡◌, ◌+◌, ◌*◌, ◌^◌, ◌<◌, ◌≤◌, ◌++◌, ◌∷◌, [], length, fold, slice_set, true, IfOk, OnOk};
ghost use Rattle.chp_base.specs.declared.span.Span.{Span};
ghost use Rattle.prs_core.specs.Pairs.{pairs_from};
ghost use Rattle.width_check.specs.Processes.{assigning};
ghost use Rattle.width_check.specs.Typed.{program_of};
ghost use Rattle.width_check.specs.Typing.{channel_width, var_width, IsOfWidth, IsSend, IsReceive};
ghost use Rattle.width_check.specs.View.{formula_of};
ghost use Rattle.handshake_expand.specs.Answers.{answer_of};
ghost use Rattle.handshake_expand.specs.Layout.{assign_size, formula_size, root_request};
ghost use Rattle.cell_channel.specs.Ends.{end_answer, port_rules};
ghost use Rattle.cell_variable.specs.Variables.{write_answer};
ghost use Rattle.function_blocks.specs.Expressions.{formula_rules, formula_result};
ghost use Rattle.net_compose.specs.Begins.{channel_firsts, var_firsts};
ghost use Rattle.net_compose.specs.Translation.{ack_at, assigned_rails, bits_at, hidden_high, rails_at, rules_of, written_at};
ghost use Rattle.net_compose.specs.Contacts.{sends, takes, writes};

use crate::contact::Contact;
use crate::driver::Driver;
use crate::ends::{ack_node, channel_bits, first_of, var_bits, written_node};
use crate::first::raise;
use crate::firsts::Firsts;
use crate::formula::{formula, port};
use crate::through::through;
use function_blocks::{Bit, bits_apart};
use handshake_expand::reads;
use std::alloc::{AllocError, Global};
use width_check::{TExpr, Typed};

/// Adds the drivers of a send, whose nodes are numbered from `from` on, and returns the first of these, its answer.
pub(crate) fn send(
    alloc: Global,
    program: &Typed,
    chan: u32,
    value: &TExpr,
    request: u32,
    from: u32,
    firsts: &Firsts,
    contacts: &mut Vec<Contact>,
    drivers: &mut Vec<Driver>,
) -> Result<u32, AllocError>
    requires channels { firsts.now.channels.items ≡ channel_firsts (program_of program.now) }
    requires vars { firsts.now.vars.items ≡ var_firsts (program_of program.now) }
    requires process { IsSend program.now.channels program.now.vars chan (formula_of value.now) }
    requires root { root_request (program_of program.now) ≤ from }
    requires room { from + 1 + formula_size (formula_of value.now) < 2 ^ 32 }
    ensures made { OnOk result (drivers.new.items ≡ drivers.old.items
        ++ end_answer request (ack_at (program_of program.now) chan)
        ∷ formula_rules (bits_at (program_of program.now)) (formula_of value.now) request (from + 1)) }
    ensures answer { IfOk result (λ answer. answer ≡ from) }
    ensures contacts { OnOk result (contacts.new.items ≡ contacts.old.items
        ++ sends chan (formula_result (formula_of value.now) (from + 1)) ∷ []) }
{
    let ack = ack_node(program, chan, &firsts.channels);
    drivers.push(Driver::site(request, ack))?;
    let bits = formula(
        alloc,
        program,
        value,
        request,
        from + 1,
        &firsts.vars,
        drivers,
    )?;
    contacts.push(Contact::send(chan, bits))?;
    Ok(from)
}

/// Adds the drivers of a receive, whose nodes are numbered from `from` on: its answer, the node that says that the
/// value is stored, and its port. Returns the first of these.
pub(crate) fn receive(
    alloc: Global,
    program: &Typed,
    chan: u32,
    var: u32,
    request: u32,
    from: u32,
    firsts: &Firsts,
    contacts: &mut Vec<Contact>,
    drivers: &mut Vec<Driver>,
) -> Result<u32, AllocError>
    requires channels { firsts.now.channels.items ≡ channel_firsts (program_of program.now) }
    requires vars { firsts.now.vars.items ≡ var_firsts (program_of program.now) }
    requires process { IsReceive program.now.channels program.now.vars chan var }
    requires root { root_request (program_of program.now) ≤ from }
    requires room { from + 2 + 2 * channel_width program.now.channels chan < 2 ^ 32 }
    ensures made { OnOk result (drivers.new.items ≡ drivers.old.items
        ++ end_answer request (ack_at (program_of program.now) chan)
        ∷ write_answer request (written_at (program_of program.now) var)
        ∷ port_rules request (rails_at (program_of program.now) chan)) }
    ensures answer { IfOk result (λ answer. answer ≡ from) }
    ensures contacts { OnOk result (contacts.new.items ≡ contacts.old.items
        ++ takes chan (from + 1) ∷ writes var (pairs_from (channel_width program.now.channels chan) (from + 2)) ∷ []) }
{
    let ack = ack_node(program, chan, &firsts.channels);
    let written = written_node(program, var, &firsts.vars);
    let width = channel_bits(program, chan);
    let first = first_of(&firsts.channels, chan);
    drivers.push(Driver::site(request, ack))?;
    drivers.push(Driver::site(request, written))?;
    port(request, width, first, drivers)?;
    let bits = bits_apart(alloc, 2, width, from + 2)?;
    contacts.push(Contact::take(chan, from + 1))?;
    contacts.push(Contact::write(var, bits))?;
    Ok(from)
}

/// Adds the drivers of an assignment to a variable that its own expression doesn't read, and returns the bits.
fn plain(
    alloc: Global,
    program: &Typed,
    var: u32,
    value: &TExpr,
    request: u32,
    from: u32,
    vars: &[u32],
    drivers: &mut Vec<Driver>,
) -> Result<Vec<Bit>, AllocError>
    requires vars { vars.now ≡ var_firsts (program_of program.now) }
    requires within { var < length program.now.vars }
    requires width { IsOfWidth program.now.vars (var_width program.now.vars var) (formula_of value.now) }
    requires root { root_request (program_of program.now) ≤ from }
    requires room { from + 1 + formula_size (formula_of value.now) < 2 ^ 32 }
    ensures made { OnOk result (drivers.new.items ≡ drivers.old.items
        ++ write_answer request (written_at (program_of program.now) var)
        ∷ formula_rules (bits_at (program_of program.now)) (formula_of value.now) request (from + 1)) }
    ensures bits { IfOk result (λ bits. bits.items ≡ formula_result (formula_of value.now) (from + 1)) }
{
    let written = written_node(program, var, vars);
    drivers.push(Driver::site(request, written))?;
    formula(alloc, program, value, request, from + 1, vars, drivers)
}

/// Adds the drivers of an assignment, and returns the node that answers its request and the bits by which the variable
/// is written. One that reads its own target goes through a hidden variable, which is 0 at first.
fn assigned(
    alloc: Global,
    program: &Typed,
    var: u32,
    value: &TExpr,
    request: u32,
    from: u32,
    vars: &[u32],
    first: &mut [bool],
    drivers: &mut Vec<Driver>,
) -> Result<(u32, Vec<Bit>), AllocError>
    requires vars { vars.now ≡ var_firsts (program_of program.now) }
    requires within { var < length program.now.vars }
    requires width { IsOfWidth program.now.vars (var_width program.now.vars var) (formula_of value.now) }
    requires root { root_request (program_of program.now) ≤ from }
    requires own { from + assign_size (program_of program.now) var (formula_of value.now) ≤ length first.old }
    requires few { length first.old < 2 ^ 32 }
    ensures made { OnOk result ((at : Span) → drivers.new.items ≡ drivers.old.items
        ++ rules_of (program_of program.now) (assigning var at (formula_of value.now)) request from) }
    ensures answer { IfOk result (λ written. (at : Span) → written.0
        ≡ answer_of (program_of program.now) (assigning var at (formula_of value.now)) from) }
    ensures bits { IfOk result (λ written. written.1.items
        ≡ assigned_rails (program_of program.now) var (formula_of value.now) from) }
    ensures first { OnOk result ((at : Span) → first.new ≡ fold (λ values node. slice_set values node true) first.old
        (hidden_high (program_of program.now) (assigning var at (formula_of value.now)) from)) }
    ensures count { length first.new ≡ length first.old }
{
    if reads(value, var) {
        let width = var_bits(program, var);
        raise(first, width, 0, from);
        through(alloc, program, var, value, request, from, vars, drivers)
    } else {
        let bits = plain(alloc, program, var, value, request, from, vars, drivers)?;
        Ok((from, bits))
    }
}

/// Adds the drivers of an assignment, whose nodes are numbered from `from` on, and returns the node that answers its
/// request.
pub(crate) fn assign(
    alloc: Global,
    program: &Typed,
    var: u32,
    value: &TExpr,
    request: u32,
    from: u32,
    vars: &[u32],
    first: &mut [bool],
    contacts: &mut Vec<Contact>,
    drivers: &mut Vec<Driver>,
) -> Result<u32, AllocError>
    requires vars { vars.now ≡ var_firsts (program_of program.now) }
    requires within { var < length program.now.vars }
    requires width { IsOfWidth program.now.vars (var_width program.now.vars var) (formula_of value.now) }
    requires root { root_request (program_of program.now) ≤ from }
    requires own { from + assign_size (program_of program.now) var (formula_of value.now) ≤ length first.old }
    requires few { length first.old < 2 ^ 32 }
    ensures made { OnOk result ((at : Span) → drivers.new.items ≡ drivers.old.items
        ++ rules_of (program_of program.now) (assigning var at (formula_of value.now)) request from) }
    ensures answer { IfOk result (λ answer. (at : Span) → answer
        ≡ answer_of (program_of program.now) (assigning var at (formula_of value.now)) from) }
    ensures contacts { OnOk result (contacts.new.items ≡ contacts.old.items
        ++ writes var (assigned_rails (program_of program.now) var (formula_of value.now) from) ∷ []) }
    ensures first { OnOk result ((at : Span) → first.new ≡ fold (λ values node. slice_set values node true) first.old
        (hidden_high (program_of program.now) (assigning var at (formula_of value.now)) from)) }
    ensures count { length first.new ≡ length first.old }
{
    let (answer, bits) = assigned(
        alloc, program, var, value, request, from, vars, first, drivers,
    )?;
    contacts.push(Contact::write(var, bits))?;
    Ok(answer)
}
