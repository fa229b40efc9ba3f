//! The drivers of the own nodes of selections and guarded repetitions, and of their guards.

ghost use Rattle.std.specs.Prelude.{◌≡◌, ◌+◌, ◌*◌, ◌^◌, ◌<◌, ◌≤◌, ◌++◌, [], ◌∷◌, if◌then◌else◌, true, false, length, slice_set, IfOk, OnOk};
ghost use Rattle.std.specs.List.{range_with_len};
ghost use Rattle.prs_core.specs.Pairs.{no_rules, or_of, rails_of};
ghost use Rattle.width_check.specs.Processes.{choosing};
ghost use Rattle.width_check.specs.Typed.{program_of};
ghost use Rattle.width_check.specs.Typing.{IsProcess, AreChoices};
ghost use Rattle.handshake_expand.specs.Layout.{guards_size, size_of, root_request};
ghost use Rattle.handshake_expand.specs.Answers.{guards_from, bodies_from, select_own, again_own};
ghost use Rattle.handshake_expand.specs.PartTree.{own_before};
ghost use Rattle.cell_sequence.specs.Sequence.{q_child};
ghost use Rattle.cell_select.specs.Selections.{joined_answer, turn_request, latches, starts, select_rules, again_rules};
ghost use Rattle.width_check.specs.View.{choices_in};
ghost use Rattle.net_compose.specs.Begins.{var_firsts};
ghost use Rattle.net_compose.specs.Translation.{branch_answers, guard_pairs, guards_rules, choosing_at, repeating_at};
ghost use Rattle.net_compose.specs.Drivers.{wanted_latch, let_go};
ghost use Rattle.net_compose.specs.Wanted.{one_wanted, all_unwanted};

use crate::driver::{Driver, add};
use crate::formula::formula;
use function_blocks::laws::rules_counted;
use function_blocks::{Bit, rails_of};
use std::alloc::{AllocError, Global};
use width_check::{TArm, Typed};

/// How many nodes come before the latches: 3 in a selection, and 6, where `again`, in a guarded repetition.
pub fn own_nodes(again: bool) -> u32
    ensures { result ≡ own_before again }
{
    if again { 6 } else { 3 }
}

/// So many nodes, numbered from `from` on.
fn numbered_nodes(alloc: Global, from: u32, count: u32) -> Result<Vec<u32>, AllocError>
    requires room { from + count < 2 ^ 32 }
    ensures { IfOk result (λ nodes. nodes.items ≡ range_with_len from count) }
{
    let mut nodes = Vec::new(alloc);
    for place in 0..count {
        nodes.push(from + place)?;
    }
    Ok(nodes)
}

/// The rails that require all guards to be false.
fn all_unwanted(alloc: Global, guards: &[Bit]) -> Result<Vec<u32>, AllocError>
    ensures { IfOk result (λ rails. rails.items ≡ all_unwanted guards.now) }
{
    let mut rails = Vec::new(alloc);
    for guard in guards {
        rails.push(guard.rail(false))?;
    }
    Ok(rails)
}

/// The rails that require one guard to be true and all others false.
fn one_wanted(alloc: Global, guards: &[Bit], place: usize) -> Result<Vec<u32>, AllocError>
    requires { place < length guards.now }
    ensures { IfOk result (λ rails. rails.items ≡ one_wanted guards.now place) }
{
    let mut rails = all_unwanted(alloc, guards)?;
    let guard = &guards[place];
    rails[place] = guard.rail(true);
    Ok(rails)
}

/// Adds the latches of the guards.
fn add_latches(
    alloc: Global,
    guards: &[Bit],
    request: u32,
    drivers: &mut Vec<Driver>,
) -> Result<(), AllocError>
    ensures { OnOk result (drivers.new.items ≡ drivers.old.items ++ latches request guards.now) }
{
    for place in 0..guards.len() {
        let wanted = one_wanted(alloc, guards, place)?;
        add(Driver::wanted(request, wanted), drivers)?;
    }
    Ok(())
}

/// Adds the starts of the branches, whose latches are numbered from `latched` on.
fn add_starts(
    alloc: Global,
    guards: &[Bit],
    latched: u32,
    count: u32,
    drivers: &mut Vec<Driver>,
) -> Result<(), AllocError>
    requires { latched + count < 2 ^ 32 }
    ensures { OnOk result (drivers.new.items
        ≡ drivers.old.items ++ starts (range_with_len latched count) guards.now) }
{
    for place in 0..count {
        let rails = rails_of(alloc, guards)?;
        let latch = latched + place;
        add(Driver::started(latch, latch, rails), drivers)?;
    }
    Ok(())
}

/// Adds the drivers of the guards, whose nodes are numbered from `from` on, and returns their bits.
fn guards(
    alloc: Global,
    program: &Typed,
    arms: &[TArm],
    request: u32,
    from: u32,
    vars: &[u32],
    drivers: &mut Vec<Driver>,
) -> Result<Vec<Bit>, AllocError>
    requires vars { vars.now ≡ var_firsts (program_of program.now) }
    requires choices { AreChoices program.now.channels program.now.vars (choices_in arms.now) }
    requires root { root_request (program_of program.now) < 2 ^ 32 }
    requires room { from + guards_size (choices_in arms.now) < 2 ^ 32 }
    ensures made { OnOk result (drivers.new.items ≡ drivers.old.items
        ++ guards_rules (program_of program.now) (choices_in arms.now) request from) }
    ensures bits { IfOk result (λ bits. bits.items ≡ guard_pairs (choices_in arms.now) from) }
{
    rules_counted();
    let mut bits = Vec::new(alloc);
    let mut next = from;
    for arm in arms {
        let begun = drivers.len();
        let bit = formula(alloc, program, &arm.guard, request, next, vars, drivers)?;
        bits.extend_from_slice(&bit)?;
        next += (drivers.len() - begun) as u32;
    }
    Ok(bits)
}

/// Adds the drivers of the three own nodes of a selection that come before the latches of its `count` branches. The
/// joined answer, the first of them, isn't driven yet.
fn joining_nodes(
    alloc: Global,
    request: u32,
    from: u32,
    count: u32,
    drivers: &mut Vec<Driver>,
) -> Result<(), AllocError>
    requires { from + 3 + count < 2 ^ 32 }
    ensures { OnOk result (drivers.new.items ≡ drivers.old.items
        ++ no_rules ∷ q_child request (from + 2) ∷ or_of (range_with_len (from + 3) count) ∷ []) }
{
    add(Driver::undriven(), drivers)?;
    add(Driver::child(request, from + 2), drivers)?;
    add(
        Driver::any(numbered_nodes(alloc, from + 3, count)?),
        drivers,
    )
}

/// Adds the drivers of a selection's own nodes, numbered from `from` on, and of its guards after them. The joined
/// answer isn't driven until the answers of the branches are known: `join_answers` sets it.
#[tactic(auto, using(handshake_expand::proofs::Branches::choosing_size, handshake_expand::proofs::Rows::arms_counted))]
fn selection_nodes(
    alloc: Global,
    program: &Typed,
    arms: &[TArm],
    request: u32,
    from: u32,
    vars: &[u32],
    drivers: &mut Vec<Driver>,
) -> Result<(), AllocError>
    requires vars { vars.now ≡ var_firsts (program_of program.now) }
    requires process { IsProcess program.now.channels program.now.vars (choosing false (choices_in arms.now)) }
    requires root { root_request (program_of program.now) ≤ from }
    requires room { from + size_of (program_of program.now) (choosing false (choices_in arms.now)) < 2 ^ 32 }
    ensures { OnOk result (slice_set drivers.new.items (length drivers.old.items)
        (joined_answer (from + 2) (branch_answers (program_of program.now) (choices_in arms.now)
        (bodies_from (choices_in arms.now) select_own from))) ≡ drivers.old.items
        ++ (select_rules (choosing_at (program_of program.now) (choices_in arms.now) request (from + 2) select_own from)
        ++ guards_rules (program_of program.now) (choices_in arms.now) (from + 1)
        (guards_from (choices_in arms.now) select_own from))) }
{
    let count = arms.len() as u32;
    let latched = from + 3;
    let mut inner = Vec::new(alloc);
    let bits = guards(
        alloc,
        program,
        arms,
        from + 1,
        latched + 2 * count,
        vars,
        &mut inner,
    )?;
    joining_nodes(alloc, request, from, count, drivers)?;
    add_latches(alloc, &bits, request, drivers)?;
    add_starts(alloc, &bits, latched, count, drivers)?;
    drivers.append(&mut inner)?;
    Ok(())
}

/// Adds the drivers of the six own nodes of a guarded repetition that come before the latches of its `count` branches.
/// The joined answer, the third of them, isn't driven yet.
fn turn_nodes(
    alloc: Global,
    guards: &[Bit],
    request: u32,
    from: u32,
    count: u32,
    drivers: &mut Vec<Driver>,
) -> Result<(), AllocError>
    requires { from + 6 + count < 2 ^ 32 }
    ensures { OnOk result (drivers.new.items ≡ drivers.old.items
        ++ let_go (from + 5) (from + 4) (rails_of guards.now) ∷ turn_request request (from + 2) ∷ no_rules
        ∷ q_child (from + 1) (from + 4) ∷ or_of (range_with_len (from + 5) (count + 1))
        ∷ wanted_latch (from + 1) (all_unwanted guards.now) ∷ []) }
{
    let turn = from + 1;
    let any = from + 4;
    let leave = from + 5;
    add(
        Driver::started(leave, any, rails_of(alloc, guards)?),
        drivers,
    )?;
    add(Driver::turn(request, from + 2), drivers)?;
    add(Driver::undriven(), drivers)?;
    add(Driver::child(turn, any), drivers)?;
    add(
        Driver::any(numbered_nodes(alloc, leave, count + 1)?),
        drivers,
    )?;
    add(Driver::wanted(turn, all_unwanted(alloc, guards)?), drivers)
}

/// Adds the drivers of a guarded repetition's own nodes, numbered from `from` on, and of its guards after them. The
/// joined answer isn't driven until the answers of the branches are known: `join_answers` sets it.
#[tactic(auto, using(handshake_expand::proofs::Branches::choosing_size, handshake_expand::proofs::Rows::arms_counted))]
fn repetition_nodes(
    alloc: Global,
    program: &Typed,
    arms: &[TArm],
    request: u32,
    from: u32,
    vars: &[u32],
    drivers: &mut Vec<Driver>,
) -> Result<(), AllocError>
    requires vars { vars.now ≡ var_firsts (program_of program.now) }
    requires process { IsProcess program.now.channels program.now.vars (choosing true (choices_in arms.now)) }
    requires root { root_request (program_of program.now) ≤ from }
    requires room { from + size_of (program_of program.now) (choosing true (choices_in arms.now)) < 2 ^ 32 }
    ensures { OnOk result (slice_set drivers.new.items (length drivers.old.items + 2)
        (joined_answer (from + 4) (branch_answers (program_of program.now) (choices_in arms.now)
        (bodies_from (choices_in arms.now) again_own from))) ≡ drivers.old.items
        ++ (again_rules (repeating_at (program_of program.now) (choices_in arms.now) request from)
        ++ guards_rules (program_of program.now) (choices_in arms.now) (from + 3)
        (guards_from (choices_in arms.now) again_own from))) }
{
    let count = arms.len() as u32;
    let turn = from + 1;
    let latched = from + 6;
    let mut inner = Vec::new(alloc);
    let bits = guards(
        alloc,
        program,
        arms,
        from + 3,
        latched + 2 * count,
        vars,
        &mut inner,
    )?;
    turn_nodes(alloc, &bits, request, from, count, drivers)?;
    add_latches(alloc, &bits, turn, drivers)?;
    add_starts(alloc, &bits, latched, count, drivers)?;
    drivers.append(&mut inner)?;
    Ok(())
}

/// Adds the drivers of the own nodes of a selection or, where `again`, of a guarded repetition, and of its guards.
/// `join_answers` sets the joined answer, which isn't driven yet.
pub fn choice(
    alloc: Global,
    program: &Typed,
    again: bool,
    arms: &[TArm],
    request: u32,
    from: u32,
    vars: &[u32],
    drivers: &mut Vec<Driver>,
) -> Result<(), AllocError>
    requires vars { vars.now ≡ var_firsts (program_of program.now) }
    requires process { IsProcess program.now.channels program.now.vars (choosing again (choices_in arms.now)) }
    requires root { root_request (program_of program.now) ≤ from }
    requires room { from + size_of (program_of program.now) (choosing again (choices_in arms.now)) < 2 ^ 32 }
    ensures once { OnOk result (again ≡ false → slice_set drivers.new.items (length drivers.old.items)
        (joined_answer (from + 2) (branch_answers (program_of program.now) (choices_in arms.now)
        (bodies_from (choices_in arms.now) select_own from))) ≡ drivers.old.items
        ++ (select_rules (choosing_at (program_of program.now) (choices_in arms.now) request (from + 2) select_own from)
        ++ guards_rules (program_of program.now) (choices_in arms.now) (from + 1)
        (guards_from (choices_in arms.now) select_own from))) }
    ensures repeated { OnOk result (again ≡ true → slice_set drivers.new.items (length drivers.old.items + 2)
        (joined_answer (from + 4) (branch_answers (program_of program.now) (choices_in arms.now)
        (bodies_from (choices_in arms.now) again_own from))) ≡ drivers.old.items
        ++ (again_rules (repeating_at (program_of program.now) (choices_in arms.now) request from)
        ++ guards_rules (program_of program.now) (choices_in arms.now) (from + 3)
        (guards_from (choices_in arms.now) again_own from))) }
{
    if again {
        repetition_nodes(alloc, program, arms, request, from, vars, drivers)
    } else {
        selection_nodes(alloc, program, arms, request, from, vars, drivers)
    }
}

/// Sets the joined answer of a selection or guarded repetition, whose own nodes are numbered from `from` on and whose
/// drivers begin at `place`: the first one of a selection, and the third one, where `again`, of a guarded repetition.
/// `answers` are the nodes that answer the branches.
pub fn join_answers(
    place: usize,
    again: bool,
    from: u32,
    answers: Vec<u32>,
    drivers: &mut Vec<Driver>,
)
    requires room { from + 4 < 2 ^ 32 }
    requires within { place + 2 < length drivers.old.items }
    ensures { drivers.new.items ≡ slice_set drivers.old.items (place + (if again then 2 else 0))
        (joined_answer (from + (if again then 4 else 2)) answers.items) }
{
    if again {
        drivers[place + 2] = Driver::joined(from + 4, answers);
    } else {
        drivers[place] = Driver::joined(from + 2, answers);
    }
}
