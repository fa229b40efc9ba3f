//! The lines that are printed: numbers, where a way lies, and loops.

ghost use Rattle.std.specs.Prelude.{◌≡◌, ◌++◌, map, codes, decimal, OnOk};
ghost use Rattle.width_check.specs.View.{process_of};
ghost use Rattle.handshake_expand.specs.PartText.{kind_word};
ghost use Rattle.handshake_expand.specs.PartTree.{part_kind};
ghost use Rattle.command_answers.specs.Lines.{span_text};
ghost use Rattle.pace_bound.specs.Whereabouts.{point_of, way_of, loop_of};
ghost use Rattle.pace_command.specs.FirstNames.{first_name_at};
ghost use Rattle.pace_command.specs.Pacing.{number_line, sum_text};
ghost use Rattle.pace_command.specs.WayTexts.{place_text, point_text, way_text, loop_line, loops_text};

use crate::first_names::first_name_at;
use chp_base::Span;
use handshake_expand::reads;
use itoa::Buffer;
use pace_bound::{Loop, Point, Way};
use std::alloc::AllocError;
use width_check::TStmt;

/// Adds a number.
fn add_number(text: &mut Vec<u8>, number: u64) -> Result<(), AllocError>
    ensures { OnOk result (text.new.items ≡ text.old.items ++ decimal number) }
{
    let mut digits = Buffer::new();
    text.extend_from_slice(digits.format(number).as_bytes())
}

/// Adds a word and its number.
pub(crate) fn add_line(text: &mut Vec<u8>, word: &[u8], number: u64) -> Result<(), AllocError>
    ensures { OnOk result (text.new.items ≡ text.old.items ++ number_line word.now number) }
{
    text.extend_from_slice(word)?;
    text.extend_from_slice(b" ")?;
    add_number(text, number)?;
    text.extend_from_slice(b"\n")
}

/// Adds the two lines of its rounds under a script.
pub(crate) fn add_sum(text: &mut Vec<u8>, rounds: u32, sum: u64) -> Result<(), AllocError>
    ensures { OnOk result (text.new.items ≡ text.old.items ++ sum_text rounds sum) }
{
    add_line(text, b"rounds", rounds as u64)?;
    add_line(text, b"sum", sum)
}

/// Adds the place of a name.
fn add_span(text: &mut Vec<u8>, at: Span) -> Result<(), AllocError>
    ensures { OnOk result (text.new.items ≡ text.old.items ++ codes " at " ++ span_text at) }
{
    text.extend_from_slice(b" at ")?;
    add_number(text, at.from as u64)?;
    text.extend_from_slice(b"..")?;
    add_number(text, at.to as u64)
}

/// Adds the place of the first name of a statement, where it has one.
fn add_place(text: &mut Vec<u8>, s: &TStmt) -> Result<(), AllocError>
    ensures { OnOk result (text.new.items ≡ text.old.items ++ place_text (first_name_at (process_of s.now))) }
{
    match first_name_at(s) {
        None => Ok(()),
        Some(at) => add_span(text, at),
    }
}

/// The word for the kind of a statement, as `expand` prints it.
fn word_of(s: &TStmt) -> &'static [u8]
    ensures { result.now ≡ kind_word (part_kind (process_of s.now)) }
{
    match s {
        TStmt::Skip => b"skip",
        TStmt::Assign { var, value, .. } => if reads(value, *var) {
            b"through"
        } else {
            b"assign"
        },
        TStmt::Send { .. } => b"send",
        TStmt::Receive { .. } => b"receive",
        TStmt::Then { .. } => b"sequence",
        TStmt::Beside { .. } => b"parallel",
        TStmt::Select { again: false, .. } => b"select",
        TStmt::Select { again: true, .. } => b"again",
        TStmt::Repeat { .. } => b"loop",
    }
}

/// Adds where a way begins or ends.
fn add_point(text: &mut Vec<u8>, point: &Point<'_>) -> Result<(), AllocError>
    ensures { OnOk result (text.new.items ≡ text.old.items ++ point_text (point_of point.now)) }
{
    match point {
        Point::Started => text.extend_from_slice(b"start"),
        Point::Step(s) => {
            text.extend_from_slice(word_of(s))?;
            add_place(text, s)
        }
        Point::Ended => text.extend_from_slice(b"end"),
    }
}

/// Adds the two ends of a way.
pub(crate) fn add_way(text: &mut Vec<u8>, way: &Way<'_>) -> Result<(), AllocError>
    ensures { OnOk result (text.new.items ≡ text.old.items ++ way_text (way_of way.now)) }
{
    text.extend_from_slice(b"from ")?;
    add_point(text, &way.from)?;
    text.extend_from_slice(b"\nto ")?;
    add_point(text, &way.to)?;
    text.extend_from_slice(b"\n")
}

/// Adds the line of a loop.
fn add_loop(text: &mut Vec<u8>, it: &Loop<'_>) -> Result<(), AllocError>
    ensures { OnOk result (text.new.items ≡ text.old.items ++ loop_line (loop_of it.now)) }
{
    text.extend_from_slice(b"loop ")?;
    add_number(text, it.longest)?;
    add_place(text, it.statement)?;
    text.extend_from_slice(b"\n")
}

/// Adds the lines of these loops.
pub(crate) fn add_loops(text: &mut Vec<u8>, loops: &[Loop<'_>]) -> Result<(), AllocError>
    ensures { OnOk result (text.new.items ≡ text.old.items ++ loops_text (map loop_of loops.now)) }
{
    for it in loops {
        add_loop(text, it)?;
    }
    Ok(())
}
