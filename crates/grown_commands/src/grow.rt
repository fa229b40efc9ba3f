//! `grow SEED STAGES [--sum]`: a program that is made of a number, or its summary.

ghost use Rattle.std.specs.Prelude.{map, IfOk, IfErr};
ghost use Rattle.command_words.specs.GrowWords.{IsGrowable};
ghost use Rattle.event_sim.specs.Asking.{picker_value};
ghost use Rattle.grown_commands.specs.Growing.{AsksGrown, Grows, IsGrownText, grow_order};
ghost use Rattle.simulation_commands.specs.Simulating.{SameObjects, StaysUnasked};
ghost use Rattle.command_steps.specs.Orders.{KeepsOrders, order_state, played_by};
ghost use Rattle.command_answers.specs.Replies.{Halts, stop_status, told_answer};

use crate::grow_summary::sum_up;
use command_answers::{Ending, Output, Stop};
use command_words::Growth;
use event_sim::Picker;
use program_maker::grow_text;
use std::alloc::Global;

/// What `grow` answers, where the text is wanted.
fn grown<'a>(alloc: Global, growth: &Growth) -> Result<Output, Stop<'a>>
    requires { IsGrowable growth.now }
    ensures answered { IfOk result (λ output. IsGrownText growth.now (told_answer output)) }
    ensures stopped { IfErr result (Halts (IsGrownText growth.now)) }
{
    match grow_text(alloc, growth.seed, growth.stages) {
        Ok(text) => Ok(Output {
            text,
            end: Ending::Done,
        }),
        Err(_) => Err(Stop::NoMemory),
    }
}

/// What `grow` answers.
pub fn grow<'a>(
    alloc: Global,
    orders: &mut Vec<Box<dyn Picker>>,
    growth: &Growth,
) -> Result<Output, Stop<'a>>
    requires { IsGrowable growth.now }
    ensures answered { IfOk result (λ output. Grows growth.now (played_by
        (map (λ order. order_state (name order) (log order) (seeded order)) orders.old.items)
        (map (λ order. order_state (name order) (log order) (seeded order)) orders.new.items))
        (told_answer output)) }
    ensures asked { IfOk result (λ output. AsksGrown growth.now.sum
        (λ p. picker_value p.vtable (name p) (log p) (spare p) (nodes p) (seeded p) (choice p))
        growth.now orders.old.items orders.new.items) }
    ensures stopped { IfErr result (Halts (Grows growth.now (played_by
        (map (λ order. order_state (name order) (log order) (seeded order)) orders.old.items)
        (map (λ order. order_state (name order) (log order) (seeded order)) orders.new.items)))) }
    ensures orders { let before = map (λ order. order_state (name order) (log order) (seeded order))
        orders.old.items in
        KeepsOrders (grow_order growth.now.sum before) (played_by before
        (map (λ order. order_state (name order) (log order) (seeded order)) orders.new.items)) }
    ensures objects { SameObjects (grow_order growth.now.sum
        (map (λ order. order_state (name order) (log order) (seeded order)) orders.old.items))
        orders.old.items orders.new.items }
    ensures unasked { IfErr result (λ stop. StaysUnasked (stop_status stop) orders.old orders.new) }
{
    if growth.sum {
        sum_up(alloc, orders, growth)
    } else {
        grown(alloc, growth)
    }
}
