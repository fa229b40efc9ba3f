//! Laws of variables, their merges and their write sites.

ghost use Rattle.std.specs.Prelude.{◌≡◌, ◌≢◌, ◌<◌, ◌≤◌, ◌∷◌, ◌+◌, ◌↔◌, ◌++◌, List, ℕ, length, AllPairs, Contains};
ghost use Rattle.prs_core.specs.Nets.{RulesValue};
ghost use Rattle.prs_core.specs.Pairs.{Pair};
ghost use Rattle.prs_core.specs.Parts.{Owned, Keeps, owned_from, with_owned};
ghost use Rattle.prs_core.specs.Sites.{site_part};
ghost use Rattle.cell_variable.specs.Variables.{bits_from, variable_rules, variable_owned, merges_owned};
ghost use Rattle.cell_variable.specs.VariableParts.{merge_part, variable_part};

use cell_parallel::laws::tree_settles;
use prs_core::laws::site_keeps;

/// Law: a variable of any width keeps its contract, and so do a merge of any number of inputs, and a write site beside
/// any number of others.
pub fn variable_keeps()
    ensures variable { (width from : ℕ) → 1 ≤ width → Keeps (variable_part width from) }
    ensures merge { (inputs : List ℕ) (output : ℕ) → 0 < length inputs → Keeps (merge_part inputs output) }
    ensures write_site { (others : List ℕ) (request all_written answer : ℕ) →
        AllPairs (λ (a b : ℕ). a ≢ b) (request ∷ all_written ∷ answer ∷ others) →
        Keeps (site_part others request all_written answer) }
{
    tree_settles();
    site_keeps();
}

/// Law: the nodes of a variable's block with their rules are the variable's own and its merges, and to write the own
/// nodes and then the merges is to write the block.
pub fn variable_divided()
    ensures nodes { (width from : ℕ) (sites : List (List Pair)) (o : Owned)
        → Contains (owned_from from (variable_rules width from sites)) o ↔ Contains (variable_owned width from
        ++ merges_owned sites 0 (bits_from width from)) o }
    ensures written { (width from : ℕ) (sites : List (List Pair)) (r : RulesValue)
        → with_owned (merges_owned sites 0 (bits_from width from)) (with_owned (variable_owned width from) r) ≡
        with_owned (owned_from from (variable_rules width from sites)) r }
{}
