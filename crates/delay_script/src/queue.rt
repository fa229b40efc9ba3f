//! The moves that are due, in the order in which they come.

ghost use Rattle.std.specs.Prelude.{◌≡◌, ◌<◌, length, replicate, slice_set, Some, None, is_some, IfOk};
ghost use Rattle.delay_script.specs.Dues.{IsFirstOf, due_at, without, next_due};

use crate::calendar::Calendar;
use crate::due::{Due, Next};
use std::alloc::{AllocError, Global};
use std::marker::Model;

/// For each node of a net its move, where that is due. The times of these moves, with their nodes, are in a calendar,
/// which finds the first of them.
#[derive(Drop)]
pub(crate) struct Queue {
    dues: Vec<Option<Due>>,
    calendar: Calendar,
}

impl Model for Queue {
    ghost use Rattle.std.specs.Prelude.{List, Option};
    ghost use Rattle.delay_script.specs.declared.due.Due.{Due};
    ghost use Rattle.delay_script.specs.Queues.{IsQueue};

    ghost Value = { List (Option Due) };

    ghost view = { λ q. q.dues.items };

    ghost invariant = { λ q. IsQueue q.dues.items q.calendar.entries q.calendar.room };
}

/// An empty entry for each of so many nodes: no move is due.
fn no_dues(alloc: Global, nodes: usize) -> Result<Vec<Option<Due>>, AllocError>
    ensures { IfOk result (λ v. v.items ≡ replicate nodes None) }
{
    let mut dues = Vec::with_capacity(alloc, nodes)?;
    for _node in 0..nodes {
        dues.push(None)?;
    }
    Ok(dues)
}

fn next_due(node: u32, due: Option<Due>) -> Option<Next>
    ensures { result ≡ next_due node due }
{
    match due {
        None => None,
        Some(due) => Some(Next { node, due }),
    }
}

impl Queue {
    /// The queue of so many nodes, with no move due.
    pub(crate) fn new(alloc: Global, nodes: usize) -> Result<Queue, AllocError>
        ensures { IfOk result (λ q. q ≡ replicate nodes None) }
    {
        let dues = no_dues(alloc, nodes)?;
        let calendar = Calendar::new(alloc, nodes)?;
        Ok(Queue { dues, calendar })
    }

    /// Whether the node's move is due.
    pub(crate) fn has(&self, node: u32) -> bool
        requires { node < length self.now }
        ensures { result ≡ is_some (due_at self.now node) }
    {
        self.dues[node as usize].is_some()
    }

    /// Inserts the node's move. It allocates no memory.
    pub(crate) fn put(&mut self, node: u32, due: Due)
        requires node { node < length self.old }
        requires free { due_at self.old node ≡ None }
        ensures { self.new ≡ slice_set self.old node (Some due) }
    {
        self.dues[node as usize] = Some(due);
        self.calendar.put(due.time, node);
    }

    /// Removes the move that is due first, of several at the same time that of the least node.
    pub(crate) fn take(&mut self) -> Option<Next>
        ensures first { IsFirstOf self.old (length self.old) result }
        ensures rest { self.new ≡ without self.old result }
    {
        let node = self.calendar.take()?;
        let place = node as usize;
        let due = self.dues[place];
        self.dues[place] = None;
        next_due(node, due)
    }
}
