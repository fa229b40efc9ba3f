//! What holds of buffers.

ghost use Rattle.std.specs.Prelude.{◌≡◌, ℕ, ◌<◌, List, length};
ghost use Rattle.chp_base.specs.declared.channel.Kind.TheVariants as kind;
ghost use Rattle.chp_syntax.specs.Shape.{IsShaped};
ghost use Rattle.chp_syntax.specs.Trees.{ProgramTree};
ghost use Rattle.width_check.specs.Accepted.{IsAccepted};
ghost use Rattle.width_check.specs.Processes.{TypedProgram};
ghost use Rattle.width_check.specs.Sharing.{MeetsSharing};
ghost use Rattle.width_check.specs.Typing.{kind_at, IsTyped};
ghost use Rattle.slack_buffer.specs.BufferedTrees.{HasBuffer, IsInnerChannel, IsRightBuffer};
ghost use Rattle.slack_buffer.specs.Buffers.{BufferKeeps};

/// Law: a buffer on a channel inside of a program keeps what passes. What a run of m steps passes on a channel is a
/// prefix of what passes there in 3m rounds with the buffer under the same script, and what the run passes on the
/// buffered channel is a prefix of what passes on its copy then. Wherever a run with the buffer leads, the copy
/// has passed what the channel has, or that without its last value.
pub fn buffers_hold()
    ensures { (p : TypedProgram) (chan k : ℕ) → IsTyped p.channels p.vars p.body → MeetsSharing p.body →
        chan < length p.channels → kind_at p.channels chan ≡ kind.Chan → BufferKeeps p chan k }
{}

/// Law: an accepted program with a buffer on a channel inside of it is accepted too, its typed form is the typed
/// program with the buffer, and that keeps what passes. It has the grammar's shape only where the program has it.
pub fn buffers_keep()
    ensures right { (p q : ProgramTree) (chan : List ℕ) (has : HasBuffer p chan q) → IsShaped p → IsAccepted p →
        IsInnerChannel p.decls chan → IsRightBuffer p chan q has.number }
    ensures shaped { (p q : ProgramTree) (chan : List ℕ) → HasBuffer p chan q → IsShaped q → IsShaped p }
{}
