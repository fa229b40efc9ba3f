//! Laws of circuits.

ghost use Rattle.circuit_places.specs.Carried.{CircuitsCarry};
ghost use Rattle.circuit_places.specs.Within.{CircuitsTakeTurns};

use cell_parallel::laws::tree_settles;
use function_blocks::laws::expressions_hold;

/// Law: the circuit of each program that is typed, meets the sharing rule and has no assignment which reads its own
/// target carries it, under every script that fits and in whatever order the nodes switch. Each state that is reached
/// is safe, the values that have passed there are those of a run of the program with as many steps as moves at most,
/// and where no move is enabled that run goes no further and `done` is high exactly where it has ended.
pub fn circuits_carry()
    ensures { CircuitsCarry }
{
    tree_settles();
    expressions_hold();
}

/// Law: in each state that such a circuit reaches, its parts take turns. A statement that has answered moves no node of
/// its own before its request falls; one whose request and answer are low has all its first values and moves nothing;
/// of two that are in one sequence or in one selection at least one rests; and each keeps the four phases of its
/// handshake.
pub fn parts_take_turns()
    ensures { CircuitsTakeTurns }
{
    tree_settles();
    expressions_hold();
}
