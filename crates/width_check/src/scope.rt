//! The declarations of a program, by name, and the widths that they give to its expressions.

ghost use Rattle.std.specs.Prelude.{◌≡◌, ◌≤◌, ◌+◌, ◌-◌, ℕ, true, false, List, map, IfSome, IfNone, IsSome, Some, None, is_none, option_map};
ghost use Rattle.chp_syntax.specs.declared.tree.Decl.{Decl};
ghost use Rattle.chp_syntax.specs.View.{expression_of};
ghost use Rattle.width_check.specs.Form.{channel_number, var_number};
ghost use Rattle.width_check.specs.Leading.{IsLead, IsLeadTo};
ghost use Rattle.width_check.specs.Places as plain;
ghost use Rattle.width_check.specs.Sound.{AreRanged, is_var_in, numbers_of};
ghost use Rattle.width_check.specs.Walk.{capped_width, links_in, side_width};

use crate::fitting::is_comparison;
use crate::lead::Lead;
use chp_base::{Name, Symbols};
use chp_syntax::{Decl, Expr, Link};

/// The declarations, none of a name twice, a table of their names, and the number of each among the channels or the
/// variables.
#[derive(Drop)]
pub struct Scope<'a> {
    decls: &'a [Decl],
    names: Symbols,
    numbers: Vec<u32>,
    ghost in_order: { names ≡ map (λ d. d.name.name) decls.now },
    ghost numbered: { numbers.items ≡ numbers_of 0 0 decls.now },
}

/// A number of bits; more than 64 count as 65.
pub fn capped(width: u64) -> u8
    ensures { result ≡ capped_width width }
{
    if width < 65 { width as u8 } else { 65 }
}

/// The number of bits of two numbers of bits together.
pub fn sum(left: u8, right: u8) -> u8
    ensures { result ≡ capped_width (left + right) }
{
    capped(u64::from(left) + u64::from(right))
}

/// The number of bits from `low` to `high`.
pub fn slice_width(high: u64, low: u64) -> u8
    ensures { result ≡ capped_width (high + 1 - low) }
{
    if high < low {
        0
    } else if high - low < 64 {
        (high - low) as u8 + 1
    } else {
        65
    }
}

/// Whether links are that of a comparison.
pub fn compares(links: &[Link]) -> bool
    ensures { result ≡ plain.compares (links_in links.now) }
{
    match links {
        [first, ..] => is_comparison(first.op),
        [] => false,
    }
}

/// Whether an expression is made of numbers alone, and so has no width by itself, whatever is declared.
fn is_widthless(e: &Expr) -> bool
    ensures { (decls : List Decl) → result ≡ is_none (plain.own_width decls (expression_of e.now)) }
{
    match e {
        Expr::Number { .. } => true,
        Expr::Whole { .. } | Expr::Slice { .. } | Expr::Bit { .. } | Expr::Join { .. } => false,
        Expr::Not { inner, .. } => is_widthless(inner),
        Expr::Chain { first, rest, .. } => {
            if compares(rest) {
                return false;
            }
            if !is_widthless(first) {
                return false;
            }
            for link in rest {
                if !is_widthless(&link.right) {
                    return false;
                }
            }
            true
        }
    }
}

impl<'a> Scope<'a> {
    /// Declarations with their names and their numbers.
    pub fn new(decls: &'a [Decl], names: Symbols, numbers: Vec<u32>) -> Scope<'a>
        requires in_order { names ≡ map (λ d. d.name.name) decls.now }
        requires numbered { numbers.items ≡ numbers_of 0 0 decls.now }
        ensures { result.decls.now ≡ decls.now }
    {
        Scope {
            decls,
            names,
            numbers,
        }
    }

    /// The declaration of a name.
    pub fn find(&self, name: &Name) -> Option<&'a Decl>
        ensures some { IfSome result (λ d. plain.declaration self.now.decls.now name.now ≡ Some d.now) }
        ensures none { IfNone result (plain.declaration self.now.decls.now name.now ≡ None) }
    {
        let place = self.names.find(name)?;
        Some(&self.decls[place as usize])
    }

    /// The declared width of a name, or 0 if it isn't declared.
    pub fn width(&self, name: &Name) -> u64
        ensures { result ≡ plain.declared_width self.now.decls.now name.now }
    {
        match self.find(name) {
            Some(decl) => decl.width,
            None => 0,
        }
    }

    /// The declared width of a name, which is in 1 to 64 like all of them.
    pub fn bits(&self, name: &Name) -> u8
        requires ranged { AreRanged self.now.decls.now }
        requires declared { IsSome (plain.declaration self.now.decls.now name.now) }
        ensures value { result ≡ plain.declared_width self.now.decls.now name.now }
        ensures some { 1 ≤ result }
        ensures most { result ≤ 64 }
    {
        self.width(name) as u8
    }

    /// The number of a name among the channels or the variables, whichever it is.
    pub fn number(&self, name: &Name) -> u32
        requires { IsSome (plain.declaration self.now.decls.now name.now) }
        ensures var { is_var_in self.now.decls.now name.now ≡ Some true →
            result ≡ var_number self.now.decls.now name.now }
        ensures channel { is_var_in self.now.decls.now name.now ≡ Some false →
            result ≡ channel_number self.now.decls.now name.now }
    {
        match self.names.find(name) {
            Some(place) => self.numbers[place as usize],
            None => unreachable!(),
        }
    }

    /// The width that an expression has by itself.
    pub fn own_width(&self, e: &Expr) -> Option<u8>
        ensures { result ≡ option_map capped_width (plain.own_width self.now.decls.now (expression_of e.now)) }
    {
        match e {
            Expr::Number { .. } => None,
            Expr::Whole { of } => Some(capped(self.width(&of.name))),
            Expr::Slice { high, low, .. } => Some(slice_width(*high, *low)),
            Expr::Bit { .. } => Some(1),
            Expr::Join { parts, .. } => {
                let mut width = 0;
                for part in parts {
                    width = sum(width, self.own_width(part).unwrap_or(0));
                    if 64 < width {
                        return Some(width);
                    }
                }
                Some(width)
            }
            Expr::Not { inner, .. } => self.own_width(inner),
            Expr::Chain { first, rest, .. } => {
                if compares(rest) {
                    return Some(1);
                }
                if let Some(width) = self.own_width(first) {
                    return Some(width);
                }
                for link in rest {
                    if let Some(width) = self.own_width(&link.right) {
                        return Some(width);
                    }
                }
                None
            }
        }
    }

    /// The width of the first of some links that has one.
    pub fn first_width(&self, links: &[Link]) -> Option<u8>
        ensures { result ≡ option_map capped_width (plain.first_width self.now.decls.now (links_in links.now)) }
    {
        for link in links {
            if let Some(width) = self.own_width(&link.right) {
                return Some(width);
            }
        }
        None
    }

    /// The width of the two sides of a comparison, which is that of its first member that has one.
    pub fn side_width(&self, first: &Expr, links: &[Link]) -> Option<u8>
        ensures { result ≡ option_map capped_width
            (side_width self.now.decls.now (expression_of first.now) (links_in links.now)) }
    {
        match self.own_width(first) {
            Some(width) => Some(width),
            None => self.first_width(links),
        }
    }

    /// Which member of a chain gives its width. Only a first member that is made of numbers alone has none.
    fn lead(&self, first: &Expr, links: &[Link]) -> Lead
        ensures { IsLead self.now.decls.now (expression_of first.now) (links_in links.now) result }
    {
        if !is_widthless(first) {
            return Lead::First;
        }
        match self.first_width(links) {
            Some(width) => Lead::Later(width),
            None => Lead::Nothing,
        }
    }

    /// Which member gives the width expected of all members of a chain, or that width, if it is expected of the chain
    /// itself.
    pub fn lead_to(&self, wanted: Option<u8>, first: &Expr, links: &[Link]) -> Lead
        ensures { IsLeadTo self.now.decls.now wanted (expression_of first.now) (links_in links.now) result }
    {
        if compares(links) {
            return self.lead(first, links);
        }
        match wanted {
            Some(width) => Lead::Later(width),
            None => self.lead(first, links),
        }
    }
}
