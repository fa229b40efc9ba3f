//! Literals, terms and guards.

ghost use Rattle.std.specs.Prelude.{◌≡◌, ◌<◌, length, IfSome, IsSome, ◌↔◌};

use std::marker::Model;
use std::slice;

/// Holds where its node has the wanted value.
#[derive(Clone, Copy)]
pub struct Literal {
    /// The number of the node.
    pub node: u32,
    /// Whether the literal wants the node high.
    pub high: bool,
}

/// The literals of a term. Up to three, as in each term of a merge or of a gate of two inputs, and where these wait for
/// a reset, take no memory of their own.
#[derive(Drop)]
enum Literals {
    One(Literal),
    Two([Literal; 2]),
    Three([Literal; 3]),
    More(Vec<Literal>),
}

/// Holds where all its literals hold. It is seen as the list of them, and is never empty.
#[derive(Drop)]
pub struct Term {
    literals: Literals,
}

impl Model for Term {
    ghost use Rattle.std.specs.Prelude.{List, ◌<◌, length};
    ghost use Rattle.prs_core.specs.declared.rule.Literal.{Literal};
    ghost use Rattle.prs_core.specs.Terms.{term_literals};

    ghost Value = { List Literal };

    ghost view = { λ t. term_literals t.literals };

    ghost invariant = { λ t. 0 < length (term_literals t.literals) };
}

impl Term {
    /// The term of these literals, or None where there are none.
    pub fn new(literals: Vec<Literal>) -> Option<Term>
        ensures some { IsSome result ↔ (0 < length literals.items) }
        ensures value { IfSome result (λ t. t ≡ literals.items) }
    {
        let literals = match &literals[..] {
            [] => return None,
            [one] => Literals::One(*one),
            [one, other] => Literals::Two([*one, *other]),
            [one, other, last] => Literals::Three([*one, *other, *last]),
            _ => Literals::More(literals),
        };
        Some(Term { literals })
    }

    /// The literals, at least one.
    pub fn literals(&self) -> &[Literal]
        ensures value { result.now ≡ self.now }
        ensures some { 0 < length self.now }
    {
        match &self.literals {
            Literals::One(literal) => slice::from_ref(literal),
            Literals::Two(both) => both,
            Literals::Three(all) => all,
            Literals::More(literals) => literals,
        }
    }
}

/// Holds where one of its terms holds. It is seen as the list of them. With no terms it never holds, and stands
/// for a rule that isn't there.
#[derive(Drop)]
pub struct Guard {
    terms: Vec<Term>,
}

impl Model for Guard {
    ghost use Rattle.std.specs.Prelude.{List};
    ghost use Rattle.prs_core.specs.declared.rule.Literal.{Literal};

    ghost Value = { List (List Literal) };

    ghost view = { λ g. g.terms.items };
}

impl Guard {
    /// The guard of these terms.
    pub fn new(terms: Vec<Term>) -> Guard
        ensures { result ≡ terms.items }
    {
        Guard { terms }
    }

    /// The terms.
    pub fn terms(&self) -> &[Term]
        ensures { result.now ≡ self.now }
    {
        &self.terms
    }
}
