//! Laws of parts that several cells have in common.

ghost use Rattle.std.specs.Prelude.{◌≢◌, ℕ, List, ◌∷◌, AllPairs};
ghost use Rattle.prs_core.specs.Parts.{Keeps};
ghost use Rattle.prs_core.specs.Sites.{site_part};

/// Law: the answer of a site keeps its contract, however many other sites there are, whatever the numbers of the nodes.
pub fn site_keeps()
    ensures { (others : List ℕ) (request ack answer : ℕ) →
        AllPairs (λ (a b : ℕ). a ≢ b) (request ∷ ack ∷ answer ∷ others) → Keeps (site_part others request ack answer) }
{}
