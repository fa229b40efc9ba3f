//! `migrate FILE`: from a rule file to one of version 2.

ghost use Rattle.std.specs.Prelude.{◌≡◌, ◌≢◌, ◌≤◌, ◌∷◌, [], All, Some, None, bytes_eq, codes, length, IfOk, IfErr};
ghost use Rattle.prs_core.specs.Nets.{IsNet};
ghost use Rattle.prs_file.specs.Spelling.{NetText};
ghost use Rattle.reset_net.specs.Resets.{reset_of};
ghost use Rattle.command_answers.specs.Answers.{given_by};
ghost use Rattle.program_commands.specs.Migrating.{Migrates, MigratesNet, named_reset};
ghost use Rattle.command_answers.specs.Replies.{Halts, Stops, told_answer};
ghost use Rattle.command_steps.specs.Steps.{FromNet, IsFileOf, most_of_net};

use chp_base::Name;
use chp_edge::Shelf;
use command_answers::{Ending, Output, Stop, bad_net};
use command_steps::{MOST_OF_NET, net_of_text, text_of_file};
use prs_core::Net;
use prs_file::{NetFault, print_net};
use reset_net::with_reset;
use std::alloc::{AllocError, Global};

fn is_reset(name: &Name) -> bool
    ensures { result ≡ bytes_eq name.now (codes "reset") }
{
    name.bytes() == b"reset".as_slice()
}

/// The number of the node named reset, or None where there is none.
fn reset_place(names: &[Name]) -> Option<usize>
    ensures { result ≡ named_reset names.now }
{
    names.iter().position(|name| is_reset(name))
}

/// The text of the net with a reset node.
fn reset_text(alloc: Global, net: Net) -> Result<Vec<u8>, AllocError>
    requires plain { net.reset ≡ None }
    requires free { All (λ name. name ≢ codes "reset") net.names }
    ensures spelled { IfOk result (λ text. NetText text.items (reset_of net)) }
    ensures kept { IfOk result (λ _. IsNet (reset_of net)) }
{
    let net = with_reset(alloc, net)?;
    print_net(alloc, &net)
}

/// The rule file of version 2 that is to replace this one, which is that of the net: itself where it is of version 2,
/// else that of the net with a reset node.
fn migrate_net<'a>(alloc: Global, text: Vec<u8>, net: Net) -> Result<Output, Stop<'a>>
    requires { IsFileOf text.items net }
    ensures answered { IfOk result (λ output. MigratesNet net (told_answer output)) }
    ensures stopped { IfErr result (Halts (MigratesNet net)) }
{
    if net.reset().is_some() {
        return Ok(Output {
            text,
            end: Ending::Done,
        });
    }
    if let Some(node) = reset_place(net.names()) {
        let line = node as u32 + 2;
        return Err(Stop::Refused(bad_net(NetFault::DoubleName, line)));
    }
    // the largest files leave little room for the text beside what is made of it
    drop(text);
    match reset_text(alloc, net) {
        Ok(text) => Ok(Output {
            text,
            end: Ending::Done,
        }),
        Err(_) => Err(Stop::NoMemory),
    }
}

fn migrate_text<'a>(alloc: Global, text: Vec<u8>) -> Result<Output, Stop<'a>>
    requires { length text.items ≤ most_of_net }
    ensures answered { IfOk result (λ output. FromNet text.items MigratesNet (told_answer output)) }
    ensures stopped { IfErr result (Halts (FromNet text.items MigratesNet)) }
{
    let net = net_of_text(alloc, &text)?;
    migrate_net(alloc, text, net)
}

/// What `migrate` answers for the file of this name.
pub fn migrate<'a, S: Shelf>(
    alloc: Global,
    shelf: &mut S,
    file: &'a str,
) -> Result<Output, Stop<'a>>
    ensures answered { IfOk result (λ output. Migrates (given_by (S.tells shelf.old) (S.holds shelf.old)) file.entry.now
        (told_answer output)) }
    ensures stopped { IfErr result (Stops (Migrates (given_by (S.tells shelf.old) (S.holds shelf.old)) file.entry.now)
        (file.entry.now ∷ []) (given_by (S.tells shelf.old) (S.holds shelf.old)) (S.faults shelf.old)
        (S.faults shelf.new)) }
    ensures same { S.tells shelf.new ≡ S.tells shelf.old }
    ensures kept { S.holds shelf.new ≡ S.holds shelf.old }
    ensures faults { S.faults shelf.old ≤ S.faults shelf.new }
{
    let text = text_of_file(alloc, shelf, file, MOST_OF_NET)?;
    migrate_text(alloc, text)
}
