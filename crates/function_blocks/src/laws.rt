//! Laws of the circuits of expressions.

ghost use Rattle.std.specs.Prelude.{◌≡◌, List, ℕ, ◌/◌, ◌%◌, ◌^◌, ◌<◌, ◌==◌, Bool, true, Some, length};
ghost use Rattle.std.specs.List.{list_all};
ghost use Rattle.prs_core.specs.Moves.{rail_value_of};
ghost use Rattle.prs_core.specs.Pairs.{Pair, pair_of, rails_of};
ghost use Rattle.width_check.specs.declared.typed.Var.{Var};
ghost use Rattle.width_check.specs.Processes.{Formula};
ghost use Rattle.width_check.specs.Typing.{ReadsFrom};
ghost use Rattle.width_check.specs.Values.{width_of, IsWellFormed};
ghost use Rattle.handshake_expand.specs.Layout.{formula_size};
ghost use Rattle.function_blocks.specs.Expressions.{HasBits, formula_result, formula_rules};
ghost use Rattle.function_blocks.specs.Waves.{Waves};
ghost use Rattle.function_blocks.specs.Listed.{Listed, node_of};
ghost use Rattle.function_blocks.specs.ExpressionParts.{InEachMoment, IsWhollyNeutral, IsWhollyValid, StandsApart, WaitsAtRest, expression_part, value_seen};
ghost use Rattle.prs_core.specs.Parts.{Keeps, is_valid};

/// Law: the value of a well-formed expression has as many bits as the expression's width.
pub fn bits_counted()
    ensures { (e : Formula) (from : ℕ) → IsWellFormed e → length (formula_result e from) ≡ width_of e }
{}

/// Law: the circuit of a well-formed expression over some variables has a pair of guards for each of its nodes, and no
/// more.
pub fn rules_counted()
    ensures { (vars : List Var) (bits : ℕ → List Pair) → HasBits vars bits → (e : Formula) (request from : ℕ)
        → IsWellFormed e → ReadsFrom vars e → length (formula_rules bits e request from) ≡ formula_size e }
{}

/// Law: under a request the rails of a well-formed expression rise to its value, and when the request falls they fall,
/// in whatever order its gates switch; `Waves` says what holds on the way.
pub fn expressions_hold()
    ensures { (e : Formula) → IsWellFormed e → Waves e }
{}

/// Law: the rules that are listed of a well-formed expression are those of its gates in order, two nodes for each gate,
/// and the listed guards say what the gates' rules say.
pub fn gates_listed()
    ensures { (vars : List Var) (e : Formula) → IsWellFormed e → ReadsFrom vars e → Listed vars e }
{}

/// Law: the circuit of an expression alone keeps its contract, beside every neighbour that raises the request over
/// valid bits of variables and low rails, lowers it over a whole value, and leaves the bits that are read alone while
/// it is high. Then each rail that rises is that of the value, and the circuit waits for nobody else.
pub fn expressions_keep()
    ensures { (bits : ℕ → List Pair) (e : Formula) (request from : ℕ)
        → StandsApart bits e request from → Keeps (expression_part bits e request from) }
{}

/// Law: where no rule of the circuit is enabled it waits for its request, or, while that is low, for a bit that is read
/// and isn't valid.
pub fn expressions_wait()
    ensures { InEachMoment WaitsAtRest }
{}

/// Law: where the request is high and all bits of the result are valid, all inner bits are valid.
pub fn all_valid()
    ensures { InEachMoment IsWhollyValid }
{}

/// Law: where the request is low and all rails of the result are low, all inner rails are low.
pub fn all_neutral()
    ensures { InEachMoment IsWhollyNeutral }
{}

/// Law: where the request is high, each rail of the result that is high is that of the value's bit, and once all bits
/// of the result are valid they are the expression's value.
pub fn value_of()
    ensures each { InEachMoment (λ bits e request from m.
        m.value request ≡ true → (bit : ℕ) (one : Bool) → bit < length (formula_result e from)
        → m.value (node_of (pair_of (formula_result e from) bit) one) ≡ true
        → (value_seen bits e m.value / 2 ^ bit % 2 == 1) ≡ one) }
    ensures whole { InEachMoment (λ bits e request from m.
        m.value request ≡ true → list_all (is_valid m.value) (formula_result e from) ≡ true
        → rail_value_of m.value (rails_of (formula_result e from)) ≡ Some (value_seen bits e m.value)) }
{}
