//! The book of a walk over a history, as it stands after the cycles so far.
ghost use Rattle.std.specs.Prelude.{◌≡◌, ◌*◌, ◌<◌, ◌↔◌, ℕ, Option, Some, None, IsTrue, OnOk};
ghost use Rattle.m386_base.specs.Bytes.{bytes_of};
ghost use Rattle.m386_image.specs.declared.image.Image.{Image as ImageData};
ghost use Rattle.m386_book.specs.Book.{Book, book_next, claimed, empty_book, IsLive, linked, moved, released, returned};
ghost use Rattle.m386_book.specs.Holding.{Keeps, selector_of};

use crate::moves::{Move, move_of, task_at};
use crate::waiting::{Waiting, add, end_by, end_life, end_of, make_live, waiter};
use m386_base::ask::Cycle;
use m386_base::fault::NoMemory;
use m386_image::image::Image;
use std::alloc::Global;

/// What each processor holds, who waits by whom, and whose links are live. A task is named by the selector of its TSS.
#[derive(Debug, Drop)]
pub(crate) struct Tasks {
    pub(crate) held: [Option<u16>; 8],
    /// The newest entry first.
    pub(crate) waiting: Vec<Waiting>,
    pub(crate) live: Vec<u16>,
}

impl Tasks {
    /// Nobody holds a task. It takes no memory yet.
    pub(crate) fn new(alloc: Global) -> Tasks
        ensures { Keeps empty_book result.held result.waiting.items result.live.items }
    {
        Tasks {
            held: [None; 8],
            waiting: Vec::new(alloc),
            live: Vec::new(alloc),
        }
    }

    /// A processor takes a task. Where the older one waits it does so by this one.
    fn claim(&mut self, waits: bool, cpu: u8, task: u16) -> Result<(), NoMemory>
        requires { cpu < 8 }
        ensures { OnOk result ((book : Book) (number : ℕ) → task ≡ number * 8
            → Keeps book self.old.held self.old.waiting.items self.old.live.items
            → Keeps (claimed waits cpu number book) self.new.held self.new.waiting.items self.new.live.items) }
    {
        let older = self.held[cpu as usize];
        end_by(&mut self.waiting, task);
        add(&mut self.waiting, waits, older, task)?;
        end_life(&mut self.live, task);
        self.held[cpu as usize] = Some(task);
        Ok(())
    }

    /// The link of the task that a processor holds is written.
    fn link(&mut self, cpu: u8) -> Result<(), NoMemory>
        requires { cpu < 8 }
        ensures { OnOk result ((book : Book)
            → Keeps book self.old.held self.old.waiting.items self.old.live.items
            → Keeps (linked (book.held cpu) book) self.new.held self.new.waiting.items self.new.live.items) }
    {
        match self.held[cpu as usize] {
            Some(task) => make_live(&mut self.live, task),
            None => Ok(()),
        }
    }

    /// A JMP gives a task free.
    fn release(&mut self, task: u16)
        ensures { (book : Book) (number : ℕ) → task ≡ number * 8
            → Keeps book self.old.held self.old.waiting.items self.old.live.items
            → Keeps (released number book) self.new.held self.new.waiting.items self.new.live.items }
    {
        end_of(&mut self.waiting, task);
        end_by(&mut self.waiting, task);
        end_life(&mut self.live, task);
    }

    /// IRET gives a task free, and the processor holds the one that waited by it.
    fn go_back(&mut self, cpu: u8, task: u16)
        requires { cpu < 8 }
        ensures { (book : Book) (number : ℕ) → task ≡ number * 8
            → Keeps book self.old.held self.old.waiting.items self.old.live.items
            → Keeps (returned cpu number book) self.new.held self.new.waiting.items self.new.live.items }
    {
        self.held[cpu as usize] = waiter(&self.waiting, task);
        end_by(&mut self.waiting, task);
        end_life(&mut self.live, task);
    }

    /// A write moves the book, and speaks of a task.
    #[tactic(auto, unfolding(crate::specs::Book::moved))]
    fn make_of(&mut self, cpu: u8, what: Move, task: u16) -> Result<(), NoMemory>
        requires { cpu < 8 }
        ensures { OnOk result ((book : Book) (number : ℕ) → task ≡ number * 8
            → Keeps book self.old.held self.old.waiting.items self.old.live.items
            → Keeps (moved cpu what (Some number) book) self.new.held self.new.waiting.items self.new.live.items) }
    {
        match what {
            Move::Claim(waits) => self.claim(waits, cpu, task),
            Move::Link => self.link(cpu),
            Move::Release => {
                self.release(task);
                Ok(())
            }
            Move::Return => {
                self.go_back(cpu, task);
                Ok(())
            }
            Move::Stay => Ok(()),
        }
    }

    /// A write moves the book. Of no task it does so only where it is of a link.
    fn make(&mut self, cpu: u8, what: Move, task: Option<u16>) -> Result<(), NoMemory>
        requires { cpu < 8 }
        ensures { OnOk result ((book : Book) (number : Option ℕ) → task ≡ selector_of number
            → Keeps book self.old.held self.old.waiting.items self.old.live.items
            → Keeps (moved cpu what number book) self.new.held self.new.waiting.items self.new.live.items) }
    {
        match task {
            Some(task) => self.make_of(cpu, what, task),
            None => self.make_of_none(cpu, what),
        }
    }

    /// A write moves the book, and speaks of no task.
    fn make_of_none(&mut self, cpu: u8, what: Move) -> Result<(), NoMemory>
        requires { cpu < 8 }
        ensures { OnOk result ((book : Book)
            → Keeps book self.old.held self.old.waiting.items self.old.live.items
            → Keeps (moved cpu what None book) self.new.held self.new.waiting.items self.new.live.items) }
    {
        match what {
            Move::Link => self.link(cpu),
            _ => Ok(()),
        }
    }

    /// Takes one more cycle into the book.
    pub(crate) fn follow(&mut self, image: &Image, cycle: &Cycle) -> Result<(), NoMemory>
        requires { cycle.now.cpu < 8 }
        ensures { OnOk result ((book : Book)
            → Keeps book self.old.held self.old.waiting.items self.old.live.items
            → Keeps (book_next image.now cycle.now book) self.new.held self.new.waiting.items self.new.live.items) }
    {
        if !cycle.ask.write {
            return Ok(());
        }
        let task = task_at(image.gdt, &cycle.ask);
        self.make(cycle.cpu, move_of(cycle.ask.role), task)
    }

    /// Whether a processor holds a task whose link is live.
    pub(crate) fn holds_live(&self, cpu: u8) -> bool
        requires { cpu < 8 }
        ensures { (book : Book) → Keeps book self.now.held self.now.waiting.items self.now.live.items
            → (IsTrue result ↔ IsLive book (book.held cpu)) }
    {
        match self.held[cpu as usize] {
            Some(task) => self.live.contains(&task),
            None => false,
        }
    }
}
