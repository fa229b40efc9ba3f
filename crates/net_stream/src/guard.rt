//! The lines of rules.

ghost use Rattle.std.specs.Prelude.{◌≡◌, ◌+◌, ◌*◌, ◌<◌, ◌≤◌, [], ◌∷◌, ◌++◌, length, map, All, if◌then◌else◌, OnOk, OnErr, IfOk, vec_len, vec_capacity, false};
ghost use Rattle.prs_core.specs.declared.rule.Literal.{Literal as LiteralValue};
ghost use Rattle.prs_core.specs.Nets.{IsBelow, is_high, up_of, down_of, guard_literals};
ghost use Rattle.prs_core.specs.Pairs.{rails_of};
ghost use Rattle.prs_file.specs.Spelling.{rule_spelling};
ghost use Rattle.function_blocks.specs.Functions.{truth, carried_on};
ghost use Rattle.function_blocks.specs.Gates.{gate_rail};
ghost use Rattle.function_blocks.specs.Waves.{rows_of};
ghost use Rattle.net_compose.specs.Circuits.{IsEnding, with_ending, guard_end, side, term_end, with_ends};
ghost use Rattle.net_stream.specs.Led.{IsPut, IsTermPut, and_behind, has_begun, on_row, row_at};
ghost use Rattle.net_compose.specs.Shapes.{all_wanted};
ghost use Rattle.net_compose.specs.Shapes.{ShapeWithin, shaped};

use function_blocks::{Bit, Function};
use net_compose::{Circuit, Driver, Ending, Shape};
use prs_core::Literal;
use prs_file::{Lead, literal_text, rule_end};
use std::alloc::AllocError;

/// Appends a literal after its lead.
fn put(net: &Circuit, lead: Lead, literal: Literal, to: &mut Vec<u8>) -> Result<(), AllocError>
    requires { literal.node < length net.now.first }
    ensures put { OnOk result (IsTermPut net.now lead Lead.And (literal ∷ []) to.old.items to.new.items
        (vec_len to.old) (vec_len to.new)) }
    ensures room { OnErr result (vec_capacity to.old < vec_len to.old + 64) }
    ensures capacity { vec_capacity to.old ≤ vec_capacity to.new }
{
    literal_text(lead, literal.high, net.name(literal.node), to)
}

/// Appends literals, and returns the lead of a further one.
fn literals_text(
    net: &Circuit,
    lead: Lead,
    literals: &[Literal],
    to: &mut Vec<u8>,
) -> Result<Lead, AllocError>
    requires { All (λ (l : LiteralValue). l.node < length net.now.first) literals.now }
    ensures put { IfOk result (λ next. IsTermPut net.now lead next literals.now to.old.items to.new.items
        (vec_len to.old) (vec_len to.new)) }
    ensures room { OnErr result (vec_capacity to.old < vec_len to.old + 64 * length literals.now) }
    ensures capacity { vec_capacity to.old ≤ vec_capacity to.new }
{
    let mut next = lead;
    for literal in literals {
        put(net, next, *literal, to)?;
        next = Lead::And;
    }
    Ok(next)
}

/// The same of nodes that are wanted high, or low.
fn nodes_text(
    net: &Circuit,
    lead: Lead,
    nodes: &[u32],
    high: bool,
    to: &mut Vec<u8>,
) -> Result<Lead, AllocError>
    requires { All (λ (l : LiteralValue). l.node < length net.now.first) (all_wanted high nodes.now) }
    ensures put { IfOk result (λ next. IsTermPut net.now lead next (all_wanted high nodes.now) to.old.items to.new.items
        (vec_len to.old) (vec_len to.new)) }
    ensures room { OnErr result (vec_capacity to.old < vec_len to.old + 64 * length (all_wanted high nodes.now)) }
    ensures capacity { vec_capacity to.old ≤ vec_capacity to.new }
{
    let mut next = lead;
    for node in nodes {
        put(net, next, Literal { node: *node, high }, to)?;
        next = Lead::And;
    }
    Ok(next)
}

/// Appends what a reset puts at the end of each term.
fn term_end_text(
    net: &Circuit,
    lead: Lead,
    ending: Ending,
    to: &mut Vec<u8>,
) -> Result<(), AllocError>
    requires { IsEnding (length net.now.first) ending }
    ensures put { OnOk result (IsTermPut net.now lead (and_behind lead (term_end ending)) (term_end ending) to.old.items
        to.new.items (vec_len to.old) (vec_len to.new)) }
    ensures room { OnErr result (vec_capacity to.old < vec_len to.old + 64 * length (term_end ending)) }
    ensures capacity { vec_capacity to.old ≤ vec_capacity to.new }
{
    match ending {
        Ending::Held(reset) => put(
            net,
            lead,
            Literal {
                node: reset,
                high: false,
            },
            to,
        ),
        Ending::Plain => Ok(()),
        Ending::Forced(_) => Ok(()),
    }
}

/// Appends a term: some literals, and after them nodes that are all wanted high, or low. It returns the lead of a
/// further term.
fn term_text(
    net: &Circuit,
    lead: Lead,
    first: &[Literal],
    nodes: &[u32],
    high: bool,
    ending: Ending,
    to: &mut Vec<u8>,
) -> Result<Lead, AllocError>
    requires within { IsBelow (length net.now.first) ((first.now ++ all_wanted high nodes.now) ∷ []) }
    requires ending { IsEnding (length net.now.first) ending }
    ensures put { IfOk result (λ next. IsPut net.now lead next
        (with_ends ending ((first.now ++ all_wanted high nodes.now) ∷ [])) to.old.items to.new.items
        (vec_len to.old) (vec_len to.new)) }
    ensures room { OnErr result (vec_capacity to.old < vec_len to.old
        + 64 * guard_literals (with_ends ending ((first.now ++ all_wanted high nodes.now) ∷ []))) }
    ensures capacity { vec_capacity to.old ≤ vec_capacity to.new }
{
    let behind = literals_text(net, lead, first, to)?;
    let next = nodes_text(net, behind, nodes, high, to)?;
    term_end_text(net, next, ending, to)?;
    Ok(Lead::Or)
}

/// Appends two terms.
fn two_terms(
    net: &Circuit,
    first: &[Literal],
    second: &[Literal],
    ending: Ending,
    to: &mut Vec<u8>,
) -> Result<Lead, AllocError>
    requires within { IsBelow (length net.now.first) ((first.now ++ []) ∷ (second.now ++ []) ∷ []) }
    requires ending { IsEnding (length net.now.first) ending }
    ensures put { IfOk result (λ next. IsPut net.now Lead.Rule next
        (with_ends ending ((first.now ++ []) ∷ (second.now ++ []) ∷ []))
        to.old.items to.new.items (vec_len to.old) (vec_len to.new)) }
    ensures room { OnErr result (vec_capacity to.old < vec_len to.old
        + 64 * guard_literals (with_ends ending ((first.now ++ []) ∷ (second.now ++ []) ∷ []))) }
    ensures capacity { vec_capacity to.old ≤ vec_capacity to.new }
{
    let next = term_text(net, Lead::Rule, first, &[], true, ending, to)?;
    term_text(net, next, second, &[], true, ending, to)
}

/// Appends a term for each node, which is wanted high.
fn each_text(
    net: &Circuit,
    nodes: &[u32],
    ending: Ending,
    to: &mut Vec<u8>,
) -> Result<Lead, AllocError>
    requires within { All (λ node. node < length net.now.first) nodes.now }
    requires ending { IsEnding (length net.now.first) ending }
    ensures put { IfOk result (λ next. IsPut net.now Lead.Rule next
        (with_ends ending (map (λ k. is_high k ∷ []) nodes.now)) to.old.items to.new.items
        (vec_len to.old) (vec_len to.new)) }
    ensures room { OnErr result (vec_capacity to.old < vec_len to.old
        + 64 * guard_literals (with_ends ending (map (λ k. is_high k ∷ []) nodes.now))) }
    ensures capacity { vec_capacity to.old ≤ vec_capacity to.new }
{
    let mut lead = Lead::Rule;
    for node in nodes {
        let literal = Literal {
            node: *node,
            high: true,
        };
        lead = term_text(net, lead, &[literal], &[], true, ending, to)?;
    }
    Ok(lead)
}

/// Appends the term of a row of the truth table of two inputs, where the function has this value on it.
fn pair_text(
    net: &Circuit,
    lead: Lead,
    function: Function,
    one: bool,
    left: Bit,
    right: Bit,
    number: u8,
    ending: Ending,
    to: &mut Vec<u8>,
) -> Result<Lead, AllocError>
    requires within { All (λ n. n < length net.now.first) (rails_of (left ∷ right ∷ [])) }
    requires ending { IsEnding (length net.now.first) ending }
    ensures put { IfOk result (λ next. IsPut net.now lead next (with_ends ending
        (on_row (left ∷ right ∷ []) (rows_of one (truth function)) (row_at 2 number))) to.old.items to.new.items
        (vec_len to.old) (vec_len to.new)) }
    ensures room { OnErr result (vec_capacity to.old < vec_len to.old + 64 * guard_literals (with_ends ending
        (on_row (left ∷ right ∷ []) (rows_of one (truth function)) (row_at 2 number)))) }
    ensures capacity { vec_capacity to.old ≤ vec_capacity to.new }
{
    let a = number % 2 == 1;
    let b = number / 2 % 2 == 1;
    if function.value(&[a, b]) == one {
        let term = [
            Literal {
                node: left.rail(a),
                high: true,
            },
            Literal {
                node: right.rail(b),
                high: true,
            },
        ];
        term_text(net, lead, &term, &[], true, ending, to)
    } else {
        Ok(lead)
    }
}

/// The same of three inputs.
fn triple_text(
    net: &Circuit,
    lead: Lead,
    function: Function,
    one: bool,
    left: Bit,
    right: Bit,
    carried: Bit,
    number: u8,
    ending: Ending,
    to: &mut Vec<u8>,
) -> Result<Lead, AllocError>
    requires within { All (λ n. n < length net.now.first) (rails_of (left ∷ right ∷ carried ∷ [])) }
    requires ending { IsEnding (length net.now.first) ending }
    ensures put { IfOk result (λ next. IsPut net.now lead next (with_ends ending
        (on_row (left ∷ right ∷ carried ∷ []) (rows_of one (truth function)) (row_at 3 number)))
        to.old.items to.new.items (vec_len to.old) (vec_len to.new)) }
    ensures room { OnErr result (vec_capacity to.old < vec_len to.old + 64 * guard_literals (with_ends ending
        (on_row (left ∷ right ∷ carried ∷ []) (rows_of one (truth function)) (row_at 3 number)))) }
    ensures capacity { vec_capacity to.old ≤ vec_capacity to.new }
{
    let a = number % 2 == 1;
    let b = number / 2 % 2 == 1;
    let c = number / 2 / 2 % 2 == 1;
    if function.value(&[a, b, c]) == one {
        let term = [
            Literal {
                node: left.rail(a),
                high: true,
            },
            Literal {
                node: right.rail(b),
                high: true,
            },
            Literal {
                node: carried.rail(c),
                high: true,
            },
        ];
        term_text(net, lead, &term, &[], true, ending, to)
    } else {
        Ok(lead)
    }
}

/// Appends a term for each row of the truth table of two inputs on which the function has this value.
fn pairs_text(
    net: &Circuit,
    function: Function,
    one: bool,
    left: Bit,
    right: Bit,
    ending: Ending,
    to: &mut Vec<u8>,
) -> Result<Lead, AllocError>
    requires within { All (λ n. n < length net.now.first) (rails_of (left ∷ right ∷ [])) }
    requires ending { IsEnding (length net.now.first) ending }
    ensures put { IfOk result (λ next. IsPut net.now Lead.Rule next (with_ends ending
        (gate_rail (left ∷ right ∷ []) (rows_of one (truth function))).up) to.old.items to.new.items
        (vec_len to.old) (vec_len to.new)) }
    ensures room { OnErr result (vec_capacity to.old < vec_len to.old + 64 * guard_literals (with_ends ending
        (gate_rail (left ∷ right ∷ []) (rows_of one (truth function))).up)) }
    ensures capacity { vec_capacity to.old ≤ vec_capacity to.new }
{
    let mut lead = Lead::Rule;
    for number in 0..4 {
        lead = pair_text(net, lead, function, one, left, right, number, ending, to)?;
    }
    Ok(lead)
}

/// The same of three inputs.
fn triples_text(
    net: &Circuit,
    function: Function,
    one: bool,
    left: Bit,
    right: Bit,
    carried: Bit,
    ending: Ending,
    to: &mut Vec<u8>,
) -> Result<Lead, AllocError>
    requires within { All (λ n. n < length net.now.first) (rails_of (left ∷ right ∷ carried ∷ [])) }
    requires ending { IsEnding (length net.now.first) ending }
    ensures put { IfOk result (λ next. IsPut net.now Lead.Rule next (with_ends ending
        (gate_rail (left ∷ right ∷ carried ∷ []) (rows_of one (truth function))).up) to.old.items to.new.items
        (vec_len to.old) (vec_len to.new)) }
    ensures room { OnErr result (vec_capacity to.old < vec_len to.old + 64 * guard_literals (with_ends ending
        (gate_rail (left ∷ right ∷ carried ∷ []) (rows_of one (truth function))).up)) }
    ensures capacity { vec_capacity to.old ≤ vec_capacity to.new }
{
    let mut lead = Lead::Rule;
    for number in 0..8 {
        lead = triple_text(
            net, lead, function, one, left, right, carried, number, ending, to,
        )?;
    }
    Ok(lead)
}

/// The same of two inputs, or of three where there is a carry from below.
fn rows_text(
    net: &Circuit,
    function: Function,
    one: bool,
    left: Bit,
    right: Bit,
    below: Option<Bit>,
    ending: Ending,
    to: &mut Vec<u8>,
) -> Result<Lead, AllocError>
    requires within { All (λ n. n < length net.now.first) (rails_of (left ∷ right ∷ carried_on below)) }
    requires ending { IsEnding (length net.now.first) ending }
    ensures put { IfOk result (λ next. IsPut net.now Lead.Rule next (with_ends ending
        (gate_rail (left ∷ right ∷ carried_on below) (rows_of one (truth function))).up) to.old.items to.new.items
        (vec_len to.old) (vec_len to.new)) }
    ensures room { OnErr result (vec_capacity to.old < vec_len to.old + 64 * guard_literals (with_ends ending
        (gate_rail (left ∷ right ∷ carried_on below) (rows_of one (truth function))).up)) }
    ensures capacity { vec_capacity to.old ≤ vec_capacity to.new }
{
    match below {
        Some(carried) => triples_text(net, function, one, left, right, carried, ending, to),
        None => pairs_text(net, function, one, left, right, ending, to),
    }
}

/// Appends the term that holds where all inputs of a gate are neutral.
fn neutral_text(
    net: &Circuit,
    left: Bit,
    right: Bit,
    below: Option<Bit>,
    ending: Ending,
    to: &mut Vec<u8>,
) -> Result<Lead, AllocError>
    requires within { All (λ n. n < length net.now.first) (rails_of (left ∷ right ∷ carried_on below)) }
    requires ending { IsEnding (length net.now.first) ending }
    ensures put { IfOk result (λ next. IsPut net.now Lead.Rule next
        (with_ends ending (all_wanted false (rails_of (left ∷ right ∷ carried_on below)) ∷ []))
        to.old.items to.new.items (vec_len to.old) (vec_len to.new)) }
    ensures room { OnErr result (vec_capacity to.old < vec_len to.old + 64 * guard_literals
        (with_ends ending (all_wanted false (rails_of (left ∷ right ∷ carried_on below)) ∷ []))) }
    ensures capacity { vec_capacity to.old ≤ vec_capacity to.new }
{
    match below {
        Some(carried) => {
            let rails = [left.t, left.f, right.t, right.f, carried.t, carried.f];
            term_text(net, Lead::Rule, &[], &rails, false, ending, to)
        }
        None => {
            let rails = [left.t, left.f, right.t, right.f];
            term_text(net, Lead::Rule, &[], &rails, false, ending, to)
        }
    }
}

/// Appends the terms that say that two bits have the same value.
fn alike_text(
    net: &Circuit,
    left: Bit,
    right: Bit,
    ending: Ending,
    to: &mut Vec<u8>,
) -> Result<Lead, AllocError>
    requires within { IsBelow (length net.now.first)
        ((is_high left.t ∷ is_high right.t ∷ []) ∷ (is_high left.f ∷ is_high right.f ∷ []) ∷ []) }
    requires ending { IsEnding (length net.now.first) ending }
    ensures put { IfOk result (λ next. IsPut net.now Lead.Rule next (with_ends ending
        ((is_high left.t ∷ is_high right.t ∷ []) ∷ (is_high left.f ∷ is_high right.f ∷ []) ∷ []))
        to.old.items to.new.items (vec_len to.old) (vec_len to.new)) }
    ensures room { OnErr result (vec_capacity to.old < vec_len to.old + 64 * guard_literals (with_ends ending
        ((is_high left.t ∷ is_high right.t ∷ []) ∷ (is_high left.f ∷ is_high right.f ∷ []) ∷ []))) }
    ensures capacity { vec_capacity to.old ≤ vec_capacity to.new }
{
    let both_true = [
        Literal {
            node: left.t,
            high: true,
        },
        Literal {
            node: right.t,
            high: true,
        },
    ];
    let both_false = [
        Literal {
            node: left.f,
            high: true,
        },
        Literal {
            node: right.f,
            high: true,
        },
    ];
    two_terms(net, &both_true, &both_false, ending, to)
}

/// Appends the terms of a guard of this form over these nodes.
fn shape_text(
    net: &Circuit,
    shape: Shape,
    nodes: &[u32],
    ending: Ending,
    to: &mut Vec<u8>,
) -> Result<Lead, AllocError>
    requires within { ShapeWithin (length net.now.first) shape nodes.now }
    requires ending { IsEnding (length net.now.first) ending }
    ensures put { IfOk result (λ next. IsPut net.now Lead.Rule next (with_ends ending (shaped shape nodes.now))
        to.old.items to.new.items (vec_len to.old) (vec_len to.new)) }
    ensures room { OnErr result (vec_capacity to.old < vec_len to.old
        + 64 * guard_literals (with_ends ending (shaped shape nodes.now))) }
    ensures capacity { vec_capacity to.old ≤ vec_capacity to.new }
{
    let lead = Lead::Rule;
    match shape {
        Shape::Never => Ok(lead),
        Shape::One { literal } => term_text(net, lead, &[literal], &[], true, ending, to),
        Shape::Two { left, right } => term_text(net, lead, &[left, right], &[], true, ending, to),
        Shape::Either { left, right } => two_terms(net, &[left], &[right], ending, to),
        Shape::Alike { left, right } => alike_text(net, left, right, ending, to),
        Shape::Each => each_text(net, nodes, ending, to),
        Shape::Highs => term_text(net, lead, &[], nodes, true, ending, to),
        Shape::Lows => term_text(net, lead, &[], nodes, false, ending, to),
        Shape::With { literal } => term_text(net, lead, &[literal], nodes, false, ending, to),
        Shape::Rows {
            function,
            one,
            left,
            right,
            below,
        } => rows_text(net, function, one, left, right, below, ending, to),
        Shape::Neutral { left, right, below } => neutral_text(net, left, right, below, ending, to),
    }
}

/// Appends the term that a reset puts after the last one, and returns the lead of a further one.
fn guard_end_text(
    net: &Circuit,
    lead: Lead,
    ending: Ending,
    to: &mut Vec<u8>,
) -> Result<Lead, AllocError>
    requires { IsEnding (length net.now.first) ending }
    ensures put { IfOk result (λ next. IsPut net.now lead next (guard_end ending) to.old.items to.new.items
        (vec_len to.old) (vec_len to.new)) }
    ensures room { OnErr result (vec_capacity to.old < vec_len to.old + 64 * guard_literals (guard_end ending)) }
    ensures capacity { vec_capacity to.old ≤ vec_capacity to.new }
{
    match ending {
        Ending::Forced(reset) => {
            let literal = Literal {
                node: reset,
                high: true,
            };
            put(net, lead, literal, to)?;
            Ok(Lead::Or)
        }
        Ending::Plain => Ok(lead),
        Ending::Held(_) => Ok(lead),
    }
}

/// Appends the terms of one of a node's guards.
fn guard_text(
    net: &Circuit,
    driver: &Driver,
    up: bool,
    ending: Ending,
    to: &mut Vec<u8>,
) -> Result<Lead, AllocError>
    requires up { IsBelow (length net.now.first) driver.now.up }
    requires down { IsBelow (length net.now.first) driver.now.down }
    requires ending { IsEnding (length net.now.first) ending }
    ensures put { IfOk result (λ next. IsPut net.now Lead.Rule next (with_ending ending (side up driver.now))
        to.old.items to.new.items (vec_len to.old) (vec_len to.new)) }
    ensures room { OnErr result (vec_capacity to.old < vec_len to.old
        + 64 * guard_literals (with_ending ending (side up driver.now))) }
    ensures capacity { vec_capacity to.old ≤ vec_capacity to.new }
{
    let pattern = &driver.pattern;
    let shape = pattern.shape(up);
    let lead = shape_text(net, shape, pattern.listed(), ending, to)?;
    guard_end_text(net, lead, ending, to)
}

/// Whether some term comes before this lead.
fn has_begun(lead: Lead) -> bool
    ensures { result ≡ has_begun lead }
{
    match lead {
        Lead::Rule => false,
        Lead::And => true,
        Lead::Or => true,
    }
}

/// Appends the line of a rule, or nothing where its guard has no terms.
pub(crate) fn rule_line(
    net: &Circuit,
    node: u32,
    up: bool,
    to: &mut Vec<u8>,
) -> Result<(), AllocError>
    requires node { node < length net.now.first }
    ensures ok { OnOk result (to.new.items ≡ to.old.items
        ++ rule_spelling net.now (if up then up_of net.now node else down_of net.now node) node up) }
    ensures room { OnErr result (vec_capacity to.old < vec_len to.old
        + 64 * (guard_literals (if up then up_of net.now node else down_of net.now node) + 1)) }
    ensures capacity { vec_capacity to.old ≤ vec_capacity to.new }
{
    let _net = net.first();
    let (driver, ending) = net.rule(node, up);
    let lead = guard_text(net, driver, up, ending, to)?;
    if has_begun(lead) {
        return rule_end(net.name(node), up, to);
    }
    Ok(())
}
