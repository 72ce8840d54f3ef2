//! The texts of the images that are made from a number.
use m386_asm::assemble::assemble;
use m386_gen::generate::{image_from, schedulers, workers};
use std::alloc::Global;
use std::fmt::Write;
use std::test::Fail;

/// What stands before the descriptors of the tasks.
const DESCRIPTORS: &str = ".org 0x1000
.desc 0 0 0 0
.desc 0 0xfffff 0x9a 0xc
.desc 0 0xfffff 0x92 0xc
";

/// The gates of the vectors 13 and 32.
const GATES: &str = ".org 0x2068
.gate 8 0x5000 0x8f 0
.org 0x2100
.gate 8 0x5100 0x8e 0
";

/// What the gates lead to.
const HANDLERS: &str = ".org 0x5000
add esp, 4
add dword [esp], 7
iret
.org 0x5100
iret
";

/// Writes the headers, with the tasks in which processors start and their timers.
fn write_headers(text: &mut String, cpus: u8, workers: u8) -> Result<(), Fail> {
    let limit = 23 + 8 * (u32::from(cpus) + u32::from(workers));
    write!(
        text,
        ".memory 65536\n.cpus {cpus}\n.gdt 0x1000 {limit}\n.idt 0x2000 0x107\n"
    )?;
    for cpu in 0..cpus {
        write!(text, ".task {cpu} {}\n", 24 + 8 * u32::from(cpu))?;
    }
    for cpu in 0..cpus {
        for tick in 1..11u8 {
            write!(text, ".plan {cpu} {} 32\n", 50 * u32::from(tick))?;
        }
    }
    Ok(())
}

/// Writes the descriptor of the task of this number.
fn write_descriptor(text: &mut String, task: u16) -> Result<(), Fail> {
    write!(
        text,
        ".desc {} 0x67 0x89 0\n",
        0x3000 + 0x80 * u32::from(task)
    )?;
    Ok(())
}

/// Writes the task state segment of the task of this number, whose code begins at an address.
fn write_task(text: &mut String, task: u16, eip: u32) -> Result<(), Fail> {
    let number = u32::from(task);
    let (place, esp) = (0x3000 + 0x80 * number, 0x9000 + 0x400 * number);
    write!(
        text,
        ".org {place}\n.tss eip={eip} efl=0x202 esp={esp} cs=8 ss=0x10 ds=0x10\n"
    )?;
    Ok(())
}

/// Writes the tables: a descriptor and a task state segment for each task, and the gates.
fn write_tables(text: &mut String, cpus: u8, workers: u8) -> Result<(), Fail> {
    text.push_str(DESCRIPTORS)?;
    for cpu in 0..cpus {
        write_descriptor(text, u16::from(cpu))?;
    }
    for worker in 0..workers {
        write_descriptor(text, u16::from(cpus) + u16::from(worker))?;
    }
    text.push_str(GATES)?;
    for cpu in 0..cpus {
        write_task(text, u16::from(cpu), 0x4000 + 0x100 * u32::from(cpu))?;
    }
    for worker in 0..workers {
        let task = u16::from(cpus) + u16::from(worker);
        write_task(text, task, 0x4800 + 0x100 * u32::from(worker))?;
    }
    Ok(())
}

/// Writes the code of a scheduler, which calls all workers in turn.
fn write_scheduler(text: &mut String, cpu: u8, cpus: u8, workers: u8) -> Result<(), Fail> {
    write!(
        text,
        ".org {}\ns{cpu}: lock inc dword [0x8000]\n",
        0x4000 + 0x100 * u32::from(cpu)
    )?;
    for worker in 0..workers {
        let task = u32::from(cpus) + u32::from(worker);
        write!(text, "call {}:0\n", 24 + 8 * task)?;
    }
    write!(text, "jmp s{cpu}\n")?;
    Ok(())
}

/// Writes the code of a worker, which counts and goes back.
fn write_worker(text: &mut String, worker: u8) -> Result<(), Fail> {
    let number = u32::from(worker);
    let (place, counter) = (0x4800 + 0x100 * number, 0x8004 + 4 * number);
    write!(
        text,
        ".org {place}\nw{worker}: lock inc dword [{counter}]\niret\njmp w{worker}\n"
    )?;
    Ok(())
}

/// The text of so many schedulers and workers.
fn text_for(alloc: Global, cpus: u8, workers: u8) -> Result<String, Fail> {
    let mut text = String::new(alloc);
    write_headers(&mut text, cpus, workers)?;
    write_tables(&mut text, cpus, workers)?;
    for cpu in 0..cpus {
        write_scheduler(&mut text, cpu, cpus, workers)?;
    }
    for worker in 0..workers {
        write_worker(&mut text, worker)?;
    }
    text.push_str(HANDLERS)?;
    Ok(text)
}

#[test]
fn each_image_from_a_number_is_the_layout_of_its_text(rt: HostRuntime) -> Result<(), Fail> {
    for number in 0..12 {
        let text = text_for(rt.alloc(), schedulers(number), workers(number))?;
        let image = assemble(rt.alloc(), text.as_bytes());
        let wanted = image_from(rt.alloc(), number)?;
        assert_eq!(rt; image.is_ok_and(|bytes| bytes == wanted), true, "{number}");
    }
    Ok(())
}
