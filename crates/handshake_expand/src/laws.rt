//! Laws of the layout.

ghost use Rattle.std.specs.Prelude.{◌≡◌, ◌+◌, ◌<◌, ◌≤◌, ℕ, AllPairs, length};
ghost use Rattle.width_check.specs.Processes.{Process, TypedProgram};
ghost use Rattle.width_check.specs.Typing.{IsProcess, IsTyped};
ghost use Rattle.handshake_expand.specs.Answers.{answer_of};
ghost use Rattle.handshake_expand.specs.Expansions.{expansion};
ghost use Rattle.handshake_expand.specs.Layout.{size_of, nodes_of};
ghost use Rattle.handshake_expand.specs.Named.{node_names};
ghost use Rattle.handshake_expand.specs.PartLaws.{Has, range, outer_ranges, Follow, LiesBefore, IsIn, IsNested};
ghost use Rattle.handshake_expand.specs.PartTree.{root_part};

/// Law: the blocks of the channels, those of the variables and the root follow one another from node 2 to the last
/// node. So none of them has a node of another, and each node but 0 and 1 is in one of them.
pub fn blocks_cover()
    ensures follow { (p : TypedProgram) → Follow 2 (outer_ranges (expansion p)) (nodes_of p) }
    ensures apart { (p : TypedProgram) → AllPairs LiesBefore (outer_ranges (expansion p)) }
    ensures all { (p : TypedProgram) (node : ℕ) → 2 ≤ node → node < nodes_of p →
        IsIn (outer_ranges (expansion p)) node }
{}

/// Law: the parts in a part lie within it, one after another.
pub fn parts_nest()
    ensures { (p : TypedProgram) → IsNested (root_part p) }
{}

/// Law: the node that answers a statement is one of its nodes.
pub fn answers_within()
    ensures { (p : TypedProgram) (s : Process) (from : ℕ) → IsProcess p.channels p.vars s →
        Has (range from (size_of p s)) (answer_of p s from) }
{}

/// Law: there is one name for each node.
pub fn names_counted()
    ensures { (p : TypedProgram) → IsTyped p.channels p.vars p.body → length (node_names p) ≡ nodes_of p }
{}
