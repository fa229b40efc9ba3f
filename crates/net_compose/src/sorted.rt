//! The sites of statements by channel and by variable.

ghost use Rattle.std.specs.Prelude.{◌≡◌, ℕ, ◌<◌, ◌==◌, ◌++◌, [], ◌∷◌, if◌then◌else◌, length, All, IfOk, OnOk};
ghost use Rattle.net_compose.specs.Contacts.{sent_by, taken_by, written_by};
ghost use Rattle.net_compose.specs.SortedContacts.{listed_at, IsDeclaredContact, HasContactLists, AreSortedContacts};

use crate::contact::{Contact, Meeting, Site};
use std::alloc::{AllocError, Global};
use width_check::Typed;

/// What the sites contribute, in their order.
#[derive(Drop)]
pub(crate) struct Sorted {
    /// Of each channel what each send on it sends.
    pub sent: Vec<Vec<Site>>,
    /// Of each channel the node by which each receive has stored the value.
    pub taken: Vec<Vec<u32>>,
    /// Of each variable what each write writes.
    pub written: Vec<Vec<Site>>,
}

/// So many empty lists.
pub fn no_lists<T: Drop>(alloc: Global, count: usize) -> Result<Vec<Vec<T>>, AllocError>
    ensures none { IfOk result (λ lists. (k : ℕ) → listed_at lists.items k ≡ []) }
    ensures count { IfOk result (λ lists. length lists.items ≡ count) }
{
    let mut lists = Vec::new(alloc);
    for _number in 0..count {
        lists.push(Vec::new(alloc))?;
    }
    Ok(lists)
}

/// Appends an item to the list of a number.
pub fn add_item<T: Drop>(lists: &mut [Vec<T>], number: u32, item: T) -> Result<(), AllocError>
    requires { number < length lists.old }
    ensures added { OnOk result ((k : ℕ) → listed_at lists.new k
        ≡ listed_at lists.old k ++ (if number == k then item ∷ [] else [])) }
    ensures count { length lists.new ≡ length lists.old }
{
    lists[number as usize].push(item)?;
    Ok(())
}

/// Appends what a site contributes to its list.
fn add_contact(sorted: &mut Sorted, contact: Contact) -> Result<(), AllocError>
    requires taken { length sorted.old.taken.items ≡ length sorted.old.sent.items }
    requires number { IsDeclaredContact (length sorted.old.sent.items) (length sorted.old.written.items) contact }
    ensures sent { OnOk result ((k : ℕ) → listed_at sorted.new.sent.items k
        ≡ listed_at sorted.old.sent.items k ++ sent_by k contact) }
    ensures taken { OnOk result ((k : ℕ) → listed_at sorted.new.taken.items k
        ≡ listed_at sorted.old.taken.items k ++ taken_by k contact) }
    ensures written { OnOk result ((x : ℕ) → listed_at sorted.new.written.items x
        ≡ listed_at sorted.old.written.items x ++ written_by x contact) }
    ensures lists { HasContactLists (length sorted.old.sent.items) (length sorted.old.written.items) sorted.new }
{
    match contact.meeting {
        Meeting::Sends { chan, site } => add_item(&mut sorted.sent, chan, site),
        Meeting::Takes { chan, node } => add_item(&mut sorted.taken, chan, node),
        Meeting::Writes { var, site } => add_item(&mut sorted.written, var, site),
    }
}

/// Sites on the program's channels and variables, by channel and by variable.
pub(crate) fn sort_contacts(
    alloc: Global,
    program: &Typed,
    contacts: Vec<Contact>,
) -> Result<Sorted, AllocError>
    requires { All (IsDeclaredContact (length program.now.channels) (length program.now.vars)) contacts.items }
    ensures { IfOk result (λ sorted.
        AreSortedContacts (length program.now.channels) (length program.now.vars) contacts.items sorted) }
{
    let sent = no_lists(alloc, program.channels().len())?;
    let taken = no_lists(alloc, program.channels().len())?;
    let written = no_lists(alloc, program.vars().len())?;
    let mut sorted = Sorted {
        sent,
        taken,
        written,
    };
    for contact in contacts {
        add_contact(&mut sorted, contact)?;
    }
    Ok(sorted)
}
