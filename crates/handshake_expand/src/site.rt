//! Where statements send, receive and write.

ghost use Rattle.std.specs.Prelude.{◌≡◌, ◌+◌, ◌^◌, ◌<◌, ◌++◌, OnOk};
ghost use Rattle.width_check.specs.Typed.{program_of};
ghost use Rattle.width_check.specs.Typing.{IsProcess};
ghost use Rattle.width_check.specs.View.{process_of};
ghost use Rattle.handshake_expand.specs.Layout.{size_of};
ghost use Rattle.handshake_expand.specs.Sites.{own_sites};

use crate::answer::answer_node;
use std::alloc::AllocError;
use width_check::{TStmt, Typed};

/// What a site does: it sends or receives on a channel, or writes a variable.
#[derive(Clone, Copy)]
pub(crate) enum SiteKind {
    Send(u32),
    Receive(u32),
    Write(u32),
}

/// A site and the first of its own nodes.
#[derive(Clone, Copy)]
pub(crate) struct SiteNode {
    pub kind: SiteKind,
    pub node: u32,
}

/// Records the sites of a statement whose nodes are numbered from `from` on, without those of the statements in it.
pub(crate) fn note_sites(
    program: &Typed,
    s: &TStmt,
    from: u32,
    sites: &mut Vec<SiteNode>,
) -> Result<(), AllocError>
    requires process { IsProcess program.now.channels program.now.vars (process_of s.now) }
    requires room { from + size_of (program_of program.now) (process_of s.now) < 2 ^ 32 }
    ensures { OnOk result (sites.new.items ≡ sites.old.items
        ++ own_sites (program_of program.now) (process_of s.now) from) }
{
    match s {
        TStmt::Assign { var, .. } => {
            let node = answer_node(program, s, from);
            let kind = SiteKind::Write(*var);
            sites.push(SiteNode { kind, node })?;
        }
        TStmt::Send { chan, .. } => {
            let kind = SiteKind::Send(*chan);
            sites.push(SiteNode { kind, node: from })?;
        }
        TStmt::Receive { chan, var, .. } => {
            let kind = SiteKind::Receive(*chan);
            sites.push(SiteNode { kind, node: from })?;
            let kind = SiteKind::Write(*var);
            let node = from + 1;
            sites.push(SiteNode { kind, node })?;
        }
        _ => {}
    }
    Ok(())
}
