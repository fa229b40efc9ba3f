//! Laws of the completion tree.

ghost use Rattle.std.specs.Prelude.{◌≡◌, List, ℕ, ◌-◌, ◌<◌, length};
ghost use Rattle.prs_core.specs.Parts.{Keeps};
ghost use Rattle.cell_parallel.specs.Trees.{tree_rules};
ghost use Rattle.cell_parallel.specs.TreeParts.{AreOutside, Settles, tree_part};

/// Law: a completion tree has one node fewer than leaves.
pub fn tree_counted()
    ensures { (leaves : List ℕ) (from : ℕ) → length (tree_rules leaves from) ≡ length leaves - 1 }
{}

/// Law: the C-elements of a tree stand to its top as they should, whatever moves beside them, where no leaf is one of
/// them.
pub fn tree_settles()
    ensures { (leaves : List ℕ) (from : ℕ) → 0 < length leaves → AreOutside leaves from → Settles leaves from }
{}

/// Law: a completion tree over at least one leaf, none of them one of its C-elements, keeps its contract. Over a leaf
/// alone, which is its own top, it has no C-element, and its neighbours may move that leaf as they like.
pub fn tree_keeps()
    ensures { (leaves : List ℕ) (from : ℕ) → 0 < length leaves → AreOutside leaves from →
        Keeps (tree_part leaves from) }
{}
