//! Declarations: their names, and what is wrong with them alone.

ghost use Rattle.std.specs.Prelude.{◌≡◌, ◌≤◌, [], map, length, None, IfOk};
ghost use Rattle.width_check.specs.Form as form;
ghost use Rattle.width_check.specs.Sound.{AreRanged, kind_of, numbers_of};
ghost use Rattle.width_check.specs.Walk as walk;

use crate::findings::{earlier, earlier_if, is_wide};
use crate::scope::capped;
use crate::typed::Var;
use chp_base::{Added, Channel, Kind, Span, Symbols};
use chp_syntax::{Decl, DeclKind};
use std::alloc::{AllocError, Global};

/// The names of some declarations, and the first span at which one is declared again.
#[derive(Drop)]
pub struct Naming {
    pub names: Symbols,
    pub double: Option<Span>,
}

/// The names of the declarations, in the order of these, each once.
pub fn name_all(alloc: Global, decls: &[Decl]) -> Result<Naming, AllocError>
    requires { length decls.now ≤ 300000 }
    ensures double { IfOk result (λ naming. naming.double ≡ walk.first_double [] None decls.now) }
    ensures names { IfOk result (λ naming. naming.double ≡ None → naming.names ≡ map (λ d. d.name.name) decls.now) }
{
    let mut names = Symbols::new(alloc);
    let mut double = None;
    for decl in decls {
        let name = decl.name.name.copy()?;
        match names.add(name)? {
            Added::Fresh(_) => {}
            Added::Known(_) => double = earlier(double, decl.name.at),
        }
    }
    Ok(Naming { names, double })
}

/// The first span of a declared width that isn't in 1 to 64.
pub fn first_out_of_range(decls: &[Decl]) -> Option<Span>
    ensures { result ≡ walk.first_of walk.is_out_of_range (λ d. d.width_at) None decls.now }
{
    let mut first = None;
    for decl in decls {
        first = earlier_if(decl.width < 1 || 64 < decl.width, first, decl.width_at);
    }
    first
}

/// The first span of a first value that doesn't fit the declared width.
pub fn first_wide(decls: &[Decl]) -> Option<Span>
    ensures { result ≡ walk.first_of walk.is_wide_first (λ d. d.first_at) None decls.now }
{
    let mut first = None;
    for decl in decls {
        first = earlier_if(
            is_wide(decl.first, capped(decl.width)),
            first,
            decl.first_at,
        );
    }
    first
}

/// The number of each declaration; channels and variables are counted separately.
pub fn number_all(alloc: Global, decls: &[Decl]) -> Result<Vec<u32>, AllocError>
    requires { length decls.now ≤ 300000 }
    ensures { IfOk result (λ numbers. numbers.items ≡ numbers_of 0 0 decls.now) }
{
    let mut numbers = Vec::new(alloc);
    let mut channels = 0;
    let mut vars = 0;
    for decl in decls {
        if decl.kind == DeclKind::Var {
            numbers.push(vars)?;
            vars += 1;
        } else {
            numbers.push(channels)?;
            channels += 1;
        }
    }
    Ok(numbers)
}

fn kind_of(kind: DeclKind) -> Kind
    ensures { result ≡ kind_of kind }
{
    match kind {
        DeclKind::In => Kind::In,
        DeclKind::Out => Kind::Out,
        DeclKind::Chan | DeclKind::Var => Kind::Chan,
    }
}

/// The declared channels, in order of declaration.
pub fn channels_of(alloc: Global, decls: &[Decl]) -> Result<Vec<Channel>, AllocError>
    requires { AreRanged decls.now }
    ensures { IfOk result (λ channels. channels.items ≡ form.channels_of decls.now) }
{
    let mut channels = Vec::new(alloc);
    for decl in decls {
        if decl.kind != DeclKind::Var {
            let name = decl.name.name.copy()?;
            let kind = kind_of(decl.kind);
            channels.push(Channel {
                name,
                kind,
                width: decl.width as u8,
            })?;
        }
    }
    Ok(channels)
}

/// The declared variables, in order of declaration.
pub fn vars_of(alloc: Global, decls: &[Decl]) -> Result<Vec<Var>, AllocError>
    requires { AreRanged decls.now }
    ensures { IfOk result (λ vars. vars.items ≡ form.vars_of decls.now) }
{
    let mut vars = Vec::new(alloc);
    for decl in decls {
        if decl.kind == DeclKind::Var {
            let name = decl.name.name.copy()?;
            vars.push(Var {
                name,
                width: decl.width as u8,
                first: decl.first,
            })?;
        }
    }
    Ok(vars)
}
