//! Laws of the selection and of the guarded repetition.

ghost use Rattle.std.specs.Prelude.{ℕ, ◌<◌, length};
ghost use Rattle.prs_core.specs.Parts.{Keeps};
ghost use Rattle.cell_select.specs.Contract.{SelectNodes, select_nodes, select_part, AgainNodes, again_nodes, again_part, AreApart};
ghost use Rattle.cell_select.specs.PortNodes.{select_of, again_of, IsSelect, IsAgain};
ghost use Rattle.cell_select.specs.declared.emit.SelectPorts.{SelectPorts};
ghost use Rattle.cell_select.specs.declared.emit.AgainPorts.{AgainPorts};

/// Law: a selection keeps its contract against every neighbour, in every order of moves, for any number of guards from
/// one on and whatever the numbers of its nodes are, as long as they are distinct. So does what `emit_select` writes.
pub fn select_keeps()
    ensures all { (c : SelectNodes) → 0 < length c.branches → AreApart (select_nodes c) → Keeps (select_part c) }
    ensures written { (count : ℕ) (p : SelectPorts) → IsSelect count p → Keeps (select_part (select_of p)) }
{}

/// Law: so does a guarded repetition, and what `emit_again` writes.
pub fn again_keeps()
    ensures all { (c : AgainNodes) → 0 < length c.branches → AreApart (again_nodes c) → Keeps (again_part c) }
    ensures written { (count : ℕ) (p : AgainPorts) → IsAgain count p → Keeps (again_part (again_of p)) }
{}
