//! What holds of the programs that texts mean.

ghost use Rattle.std.specs.Prelude.{ℕ, ◌≤◌, List, length};
ghost use Rattle.chp_syntax.specs.Reading.{Reads};
ghost use Rattle.chp_syntax.specs.Shape.{IsShaped};
ghost use Rattle.chp_syntax.specs.Trees.{ProgramTree};
ghost use Rattle.width_check.specs.Accepted.{IsAccepted};
ghost use Rattle.slack_buffer.specs.BufferedTrees.{IsRightBuffer};
ghost use Rattle.command_steps.specs.BufferSteps.{PutsBuffer};
ghost use Rattle.command_steps.specs.Inlined.{Means};
ghost use Rattle.command_steps.specs.Steps.{most_of_text};

use slack_buffer::laws::buffers_keep;

/// Law: what a text within its limit means has the shape of the grammar, whatever code makes it. With procedures too: a
/// text has no more names than bytes, so the numbers of the variables that come with the calls are small.
pub fn meant_programs_are_shaped()
    ensures { (text : List ℕ) (program plain : ProgramTree) → Reads text program → length text ≤ most_of_text →
        Means program plain → IsShaped plain }
{}

/// Law: where such a text means an accepted program, that with a buffer on a channel inside of it is accepted too, its
/// typed form is the typed program with the buffer, and that keeps what the program passes. So it is with each program
/// that a command compiles or runs with a buffer.
pub fn meant_buffers_are_right()
    ensures { (text : List ℕ) (program plain made : ProgramTree) (chan : List ℕ) → Reads text program →
        length text ≤ most_of_text → Means program plain → IsAccepted plain → (puts : PutsBuffer plain chan made) →
        IsRightBuffer plain chan made puts.buffer.number }
{
    meant_programs_are_shaped();
    buffers_keep();
}
