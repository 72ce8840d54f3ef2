//! The tasks that wait, and the selectors of live links, as lists that change.
ghost use Rattle.std.specs.Prelude.{◌≡◌, OnOk, ◌++◌, ◌∷◌, []};
ghost use Rattle.m386_book.specs.Holding.{others, others_by, others_of, waiter_by, with_added};

use m386_base::fault::NoMemory;

/// A task that waits for another to go back to it. Both are named by the selector of their TSS, with RPL 0.
#[derive(Clone, Copy, Debug, PartialEq, Eq)]
pub struct Waiting {
    /// The task that waits.
    pub task: u16,
    /// The task by which it waits.
    pub by: u16,
}

/// Ends each entry by a task.
pub(crate) fn end_by(entries: &mut Vec<Waiting>, task: u16)
    ensures { entries.new.items ≡ others_by task entries.old.items }
{
    entries.retain(|entry| entry.by != task);
}

/// Ends each entry of a task.
pub(crate) fn end_of(entries: &mut Vec<Waiting>, task: u16)
    ensures { entries.new.items ≡ others_of task entries.old.items }
{
    entries.retain(|entry| entry.task != task);
}

/// Puts the entry of the older task to the front, if there is one and it waits.
pub(crate) fn add(
    entries: &mut Vec<Waiting>,
    waits: bool,
    older: Option<u16>,
    by: u16,
) -> Result<(), NoMemory>
    ensures { OnOk result (entries.new.items ≡ with_added waits older by entries.old.items) }
{
    match older {
        Some(task) if waits => {
            entries.insert(0, Waiting { task, by })?;
            Ok(())
        }
        _ => Ok(()),
    }
}

/// The task that waits by another: that of the newest entry.
pub(crate) fn waiter(entries: &[Waiting], by: u16) -> Option<u16>
    ensures { result ≡ waiter_by by entries.now }
{
    for entry in entries {
        if entry.by == by {
            return Some(entry.task);
        }
    }
    None
}

/// Ends the life of a task's link.
pub(crate) fn end_life(live: &mut Vec<u16>, task: u16)
    ensures { live.new.items ≡ others task live.old.items }
{
    live.retain(|selector| *selector != task);
}

/// Makes a task's link live, which stands in the list once.
pub(crate) fn make_live(live: &mut Vec<u16>, task: u16) -> Result<(), NoMemory>
    ensures { OnOk result (live.new.items ≡ others task live.old.items ++ task ∷ []) }
{
    end_life(live, task);
    live.push(task)?;
    Ok(())
}
