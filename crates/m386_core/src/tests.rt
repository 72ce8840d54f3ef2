//! Worked cases of several processors, with the cycles written out by hand.
ghost use Rattle.std.specs.Prelude.{◌≡◌, ◌≤◌, IfOk};
ghost use Rattle.m386_image.specs.Format.{IsValid};

use crate::machine::Machine;
use crate::order::Order;
use crate::plans::PlanLeft;
use crate::unfinished::Unfinished;
use m386_base::ask::{Ask, Cycle, Role, Space};
use m386_base::fault::NoMemory;
use m386_base::list::List;
use m386_image::fault::ReadStop;
use m386_image::image::{Image, Planned};
use m386_image::reading::read_image;
use m386_memory::ended::ProcEnd;
use m386_memory::store::Store;
use m386_state::proc::{Mode, Proc, start_bare};
use m386_state::segment::TableReg;
use m386_turns::turns::Turn;
use std::alloc::Global;
use std::test::Fail;

/// Two bare processors at 1000, which both find `mov eax, 1` and `xchg [2000], eax` there.
const EXCHANGE: [u8; 83] = [
    0x4d, 0x33, 0x38, 0x36, 0x01, 0x00, 0x02, 0x00, 0x00, 0x40, 0x00, 0x00, 0x00, 0x00, 0x00, 0x00,
    0x00, 0x00, 0x00, 0x00, 0x00, 0x00, 0x00, 0x00, 0x00, 0x00, 0x00, 0x00, 0x01, 0x00, 0x00, 0x00,
    0x00, 0x10, 0x00, 0x00, 0x00, 0x10, 0x00, 0x00, 0x00, 0x00, 0x00, 0x00, 0x00, 0x00, 0x00, 0x00,
    0x00, 0x00, 0x00, 0x00, 0x00, 0x00, 0x00, 0x00, 0x00, 0x00, 0x00, 0x00, 0x00, 0x00, 0x00, 0x00,
    0x00, 0x10, 0x00, 0x00, 0x0b, 0x00, 0x00, 0x00, 0xb8, 0x01, 0x00, 0x00, 0x00, 0x87, 0x05, 0x00,
    0x20, 0x00, 0x00,
];

/// The image of two processors.
fn exchange(alloc: Global) -> Result<Image, ReadStop>
    ensures { IfOk result IsValid }
{
    read_image(alloc, &EXCHANGE)
}

/// A cycle of an exchange on 2000.
fn swap(cpu: u8, write: bool, value: u32) -> Cycle {
    Cycle {
        cpu,
        ask: Ask {
            space: Space::Memory,
            write,
            joined: write,
            role: Role::Operand,
            part: 0,
            addr: 0x2000,
            enables: 15,
            value,
        },
    }
}

#[test]
fn two_processors_exchange(rt: HostRuntime) -> Result<(), Fail> {
    let image = exchange(rt.alloc())?;
    assert!(rt; image.cpus >= 2);
    let mut machine = Machine::new(rt.alloc(), &image, 2, 2)?;
    assert_eq!(rt;
        (machine.image().cpus, machine.cpus(), machine.budget()),
        (2, 2, 2)
    );
    machine.run_order(&Order::Round)?;
    assert_eq!(rt; (machine.midgroup(), machine.due()), (None, None));
    let ended = machine.ended();
    let cycles = ended.log.cycles();
    assert_eq!(rt; cycles.len(), 12);
    if cycles.len() == 12 {
        let last = [
            swap(0, false, 0),
            swap(0, true, 1),
            swap(1, false, 1),
            swap(1, true, 1),
        ];
        assert_eq!(rt; &cycles[8..], last.as_slice());
    }
    for (cpu, end) in ended.procs.as_slice().iter().enumerate() {
        assert_eq!(rt;
            (end.after.regs[0], end.after.eip, end.steps),
            (cpu as u32, 0x100b, 2)
        );
    }
    Ok(())
}

/// The processors that made the cycles of a run of the exchange in an order.
fn makers(alloc: Global, image: &Image, order: &Order) -> Result<List<u8>, Fail>
    requires { IsValid image.now }
{
    let mut cpus = List::new(alloc);
    if image.cpus >= 1 {
        let mut machine = Machine::new(alloc, image, image.cpus, 2)?;
        machine.run_order(order)?;
        for cycle in machine.ended().log.cycles() {
            cpus.push(cycle.cpu)?;
        }
    }
    Ok(cpus)
}

#[test]
fn each_order_names_in_its_way(rt: HostRuntime) -> Result<(), Fail> {
    let image = exchange(rt.alloc())?;
    let zeros = List::of(vec![in rt.alloc(); 0; 200]?);
    let ones = List::of(vec![in rt.alloc(); 1; 200]?);
    let few = List::of(vec![in rt.alloc(); 9, 1, 0]?);
    let rows = [
        (Order::Round, [0, 1, 0, 1, 0, 1, 0, 1, 0, 0, 1, 1]),
        (Order::Seed(0), [1, 0, 1, 0, 1, 1, 0, 1, 1, 0, 0, 0]),
        (Order::Seed(1), [0, 1, 0, 0, 0, 1, 0, 0, 1, 1, 1, 1]),
        (Order::List(zeros), [0, 0, 0, 0, 0, 0, 1, 1, 1, 1, 1, 1]),
        (Order::List(ones), [1, 1, 1, 1, 1, 1, 0, 0, 0, 0, 0, 0]),
        (Order::List(few), [1, 0, 0, 1, 0, 1, 0, 1, 0, 0, 1, 1]),
    ];
    for (order, wanted) in &rows {
        let cpus = makers(rt.alloc(), &image, order)?;
        assert_eq!(rt; cpus.as_slice(), wanted.as_slice(), "{order:?}");
    }
    Ok(())
}

/// The image of three processors.
fn exchange_of_three(alloc: Global) -> Result<Image, ReadStop>
    ensures { IfOk result IsValid }
{
    let mut bytes = EXCHANGE;
    bytes[6] = 3;
    bytes[41] = 0x10;
    read_image(alloc, &bytes)
}

#[test]
fn three_are_named_in_turn_behind_one_that_is_passed_over(rt: HostRuntime) -> Result<(), Fail> {
    let image = exchange_of_three(rt.alloc())?;
    let few = List::of(vec![in rt.alloc(); 2, 2, 2, 2, 2, 0, 1, 2, 3, 1, 0]?);
    let rows = [
        (
            Order::Round,
            [0, 1, 2, 0, 1, 2, 0, 1, 2, 0, 1, 2, 0, 0, 1, 1, 2, 2],
        ),
        (
            Order::Seed(0),
            [2, 0, 1, 1, 2, 2, 2, 2, 2, 0, 1, 0, 0, 1, 0, 0, 1, 1],
        ),
        (
            Order::Seed(1),
            [2, 0, 0, 0, 0, 2, 2, 1, 0, 0, 1, 1, 1, 1, 1, 2, 2, 2],
        ),
        (
            Order::List(few),
            [2, 2, 2, 2, 2, 2, 1, 0, 0, 1, 0, 1, 0, 1, 0, 0, 1, 1],
        ),
    ];
    for (order, wanted) in &rows {
        let cpus = makers(rt.alloc(), &image, order)?;
        assert_eq!(rt; cpus.as_slice(), wanted.as_slice(), "{order:?}");
    }
    Ok(())
}

/// One turn of a processor, for one cycle or for a whole locked group.
fn turn(machine: &mut Machine<'_>, cpu: u8, whole: bool) -> Result<Turn, NoMemory> {
    if cpu >= machine.cpus() {
        return Ok(Turn::PassedOver);
    }
    if whole {
        machine.group(cpu)
    } else {
        machine.next(cpu)
    }
}

#[test]
fn a_locked_group_lets_no_other_in(rt: HostRuntime) -> Result<(), Fail> {
    let image = exchange(rt.alloc())?;
    assert!(rt; image.cpus >= 2);
    let mut machine = Machine::new(rt.alloc(), &image, 2, 2)?;
    let rows = [
        (4, 0, false, Turn::Made, None),
        (1, 0, false, Turn::Made, Some(0)),
        (1, 1, false, Turn::PassedOver, Some(0)),
        (1, 1, true, Turn::PassedOver, Some(0)),
        (1, 0, true, Turn::Made, None),
        (1, 0, true, Turn::PassedOver, None),
        (5, 1, true, Turn::Made, None),
        (1, 1, false, Turn::PassedOver, None),
    ];
    for (times, cpu, whole, wanted, amid) in rows {
        for _ in 0..times {
            assert_eq!(rt; turn(&mut machine, cpu, whole)?, wanted);
        }
        assert_eq!(rt; machine.midgroup(), amid);
    }
    let ended = machine.ended();
    assert_eq!(rt; ended.log.cycles().last(), Some(&swap(1, true, 1)));
    Ok(())
}

#[test]
fn one_amid_a_locked_group_is_due(rt: HostRuntime) -> Result<(), Fail> {
    let image = exchange(rt.alloc())?;
    assert!(rt; image.cpus >= 2);
    let mut machine = Machine::new(rt.alloc(), &image, 2, 2)?;
    // How often a processor is named, and which is due then. Processor 0 finishes last.
    for (times, cpu, due) in [
        (4, 1, Some(0)),
        (1, 1, Some(1)),
        (1, 0, Some(1)),
        (1, 1, Some(0)),
        (6, 0, None),
    ] {
        for _ in 0..times {
            turn(&mut machine, cpu, false)?;
        }
        assert_eq!(rt; machine.due(), due, "{cpu}");
    }
    Ok(())
}

#[test]
fn steps_without_a_cycle_are_taken_at_once(rt: HostRuntime) -> Result<(), Fail> {
    // Processor 0 finds no operation at 1004, and as the IDT has no entry meets #GP, a double fault and its end, none with a cycle;
    // processor 1 halts.
    let mut bytes = EXCHANGE;
    bytes[32] = 0x04;
    bytes[76] = 0x0f;
    bytes[77] = 0x0b;
    bytes[72] = 0xf4;
    let image = read_image(rt.alloc(), &bytes)?;
    assert!(rt; image.cpus >= 2);
    let mut machine = Machine::new(rt.alloc(), &image, 2, 5)?;
    machine.run_order(&Order::Round)?;
    let ended = machine.ended();
    let values = [0x0005_0b0f, 0x01f4];
    for (cycle, value) in ended.log.cycles().iter().zip(values) {
        assert_eq!(rt; cycle.ask.value, value);
    }
    assert_eq!(rt; ended.log.cycles().len(), 2);
    let wanted = [(4, Mode::Shutdown), (5, Mode::Halted)];
    for (end, (steps, mode)) in ended.procs.as_slice().iter().zip(wanted) {
        assert_eq!(rt; (end.steps, end.after.mode), (steps, mode));
    }
    Ok(())
}

/// An entry of a plan.
fn entry(step: u32, cpu: u8, vector: u8) -> Planned {
    Planned { step, cpu, vector }
}

/// Interrupts for two processors, in no order.
fn plan() -> [Planned; 5] {
    [
        entry(0, 1, 0x40),
        entry(1, 0, 0x20),
        entry(0, 0, 0x21),
        entry(2, 1, 0x41),
        entry(3, 0, 0x22),
    ]
}

/// The start of a bare processor, without tables.
fn bare(eip: u32) -> Proc {
    let none = TableReg { base: 0, limit: 0 };
    start_bare(eip, none, none)
}

#[test]
fn a_plan_gives_one_request_at_a_time(rt: HostRuntime) {
    // Before the step behind so many: whether a request stands, and the request then.
    let rows = [
        (0, None, None),
        (1, Some(7), Some(7)),
        (1, None, Some(0x20)),
        (1, Some(0x20), Some(0x20)),
        (2, None, Some(0x21)),
        (2, None, None),
        (3, None, Some(0x22)),
        (9, None, None),
    ];
    let mut p = bare(0x1000);
    let entries = plan();
    let mut left = PlanLeft::of(&entries, 0);
    for (steps, stands, wanted) in rows {
        p.request = stands;
        assert_eq!(rt; left.begun(steps, &p).request, wanted, "{steps}");
        left = left.after(0, steps, &p);
    }
    assert_eq!(rt; left.front, None);
}

#[test]
fn a_planned_request_comes_before_its_step(rt: HostRuntime) -> Result<(), Fail> {
    // HLT at 1000, in a processor that lets interrupts in: the first entry is delivered behind it. The IDT has no entry, so #GP, a
    // double fault and a shutdown follow, and the second entry is requested meanwhile and holds the third back. Memory holds no HLT,
    // so the step that was foreseen is another.
    let store = Store::new(rt.alloc(), 0x4000)?;
    let mut end = ProcEnd {
        after: bare(0x1000),
        steps: 0,
    };
    end.after.eflags.0 = 0x202;
    let entries = plan();
    let mut step = Unfinished::new(PlanLeft::of(&entries, 0), &end.after);
    step.settle(&mut end, 0, 5, &store);
    assert_eq!(rt; step.next.map(|ask| ask.addr), Some(0x1000));
    assert!(rt; step.answers.len() < step.cycles.len());
    assert!(rt; step.answers.len() < 192);
    if end.steps < 5 && end.after.mode != Mode::Shutdown {
        step.hear(&mut end, 0, 5, 0xf4, &store);
    }
    assert_eq!(rt; (end.steps, end.after.mode), (4, Mode::Shutdown));
    assert_eq!(rt; end.after.request, Some(0x21));
    assert_eq!(rt;
        (step.next, step.plan.front),
        (None, Some(entry(3, 0, 0x22)))
    );
    Ok(())
}
