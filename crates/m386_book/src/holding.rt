//! The book of a history, as a value.
ghost use Rattle.std.specs.Prelude.{◌<◌, All, IfOk, ℕ};
ghost use Rattle.m386_memory.specs.History.{past};
ghost use Rattle.m386_book.specs.Book.{Book, book_after};
ghost use Rattle.m386_book.specs.Holding.{IsHolding, Keeps};

use crate::tasks::Tasks;
use crate::waiting::Waiting;
use m386_base::ask::Cycle;
use m386_base::fault::NoMemory;
use m386_base::list::List;
use m386_image::image::Image;
use std::alloc::Global;

/// Which task each processor holds, which tasks wait, and whose links are live. A task is named by the selector of its TSS,
/// with RPL 0.
#[derive(Debug, Drop)]
pub struct Holding {
    /// What each processor holds, by its number.
    pub held: [Option<u16>; 8],
    /// Who waits, rising by task, and the entries of one task by the one that it waits by.
    pub waiting: List<Waiting>,
    /// The tasks whose links are live, rising.
    pub live: List<u16>,
}

/// The book after a walk, with its lists in order.
fn told(tasks: Tasks) -> Holding
    ensures { (book : Book) → Keeps book tasks.held tasks.waiting.items tasks.live.items → IsHolding book result }
{
    let held = tasks.held;
    let mut waiting = tasks.waiting;
    let mut live = tasks.live;
    waiting.sort_unstable_by_key(|entry| u32::from(entry.task) * 0x1_0000 + u32::from(entry.by));
    live.sort_unstable();
    Holding {
        held,
        waiting: List::of(waiting),
        live: List::of(live),
    }
}

/// The book of a history: which task each processor holds, which tasks wait, and whose links are live. It looks at the
/// cycles that claim a task, write a link or release one, and at no descriptor and no flag. The memory that it takes is in
/// proportion to the tasks that are held and wait.
#[tactic(auto, using(crate::proofs::Walks::walked))]
pub fn book(alloc: Global, image: &Image, cycles: &[Cycle]) -> Result<Holding, NoMemory>
    requires { All (λ c. c.cpu < 8) cycles.now }
    ensures { IfOk result (IsHolding (book_after image.now (past cycles.now))) }
{
    let mut tasks = Tasks::new(alloc);
    for cycle in cycles {
        tasks.follow(image, cycle)?;
    }
    Ok(told(tasks))
}
