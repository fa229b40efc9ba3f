//! Laws of the parts that are one after the other.

ghost use Rattle.std.specs.Prelude.{◌≢◌, ℕ, [], ◌∷◌, AllPairs};
ghost use Rattle.prs_core.specs.Parts.{Keeps};
ghost use Rattle.cell_sequence.specs.declared.emit.QPorts.{QPorts};
ghost use Rattle.cell_sequence.specs.Handshakes.{skip_part, q_part, q_nodes, loop_part};

/// Law: a Q-element, a skip and a loop keep their contracts, whatever the numbers of their nodes.
pub fn q_keeps()
    ensures q_element { (p : QPorts) → AllPairs (λ (a b : ℕ). a ≢ b) (q_nodes p) → Keeps (q_part p) }
    ensures skip { (request answer : ℕ) → AllPairs (λ (a b : ℕ). a ≢ b) (request ∷ answer ∷ []) →
        Keeps (skip_part request answer) }
    ensures repetition { (request answer body_request body_answer : ℕ) →
        AllPairs (λ (a b : ℕ). a ≢ b) (request ∷ answer ∷ body_request ∷ body_answer ∷ []) →
        Keeps (loop_part request answer body_request body_answer) }
{}
