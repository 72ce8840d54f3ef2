//! Worked cases of memory and of its history.
ghost use Rattle.std.specs.Prelude.{◌≡◌, false};
ghost use Rattle.m386_base.specs.declared.ask.Role.TheVariants as roles;

use m386_base::ask::{Ask, Cycle, Role, Space};
use m386_base::bus::Bus;
use m386_base::fault::Stop;
use m386_base::list::List;
use m386_memory::ended::{Ended, ProcEnd};
use m386_memory::fixed::FixedBus;
use m386_memory::history::Record;
use m386_memory::store::Store;
use std::test::Fail;

fn plain(space: Space, write: bool, addr: u32, enables: u8, value: u32) -> Ask
    ensures { result
        ≡ record { space = space; write = write; joined = false; role = roles.Operand; part = 0; addr = addr; enables = enables; value = value } }
{
    Ask {
        space,
        write,
        joined: false,
        role: Role::Operand,
        part: 0,
        addr,
        enables,
        value,
    }
}

fn sent<T: Send + Sync + Drop>(value: T) -> T
    ensures { result ≡ value }
{
    value
}

#[test]
fn filled_bytes_are_read(rt: HostRuntime) -> Result<(), Fail> {
    let mut store = sent(Store::new(rt.alloc(), 4096)?);
    assert_eq!(rt; store.size(), 4096);
    store.fill(4094, &[1, 2]);
    assert_eq!(rt; store.read(Space::Memory, 4092, 15), 0x0201_0000);
    store.write(Space::Port, 0x3f8, 2, 0x0700);
    assert_eq!(rt; store.read(Space::Port, 0x3f8, 15), 0x0700);
    assert_eq!(rt; store.read(Space::Memory, 0x3f8, 15), 0);
    Ok(())
}

#[test]
fn a_write_is_read_back(rt: HostRuntime) -> Result<(), Fail> {
    let mut record = Record::new(rt.alloc(), Store::new(rt.alloc(), 4096)?);
    let write = plain(Space::Memory, true, 0, 1, 5);
    let read = plain(Space::Memory, false, 0, 1, 0);
    assert_eq!(rt; record.put(0, write)?, 0);
    assert_eq!(rt; record.put(1, read)?, 5);
    let seen = Ask { value: 5, ..read };
    assert_eq!(rt;
        record.cycles(),
        [Cycle { cpu: 0, ask: write }, Cycle { cpu: 1, ask: seen }].as_slice()
    );
    assert_eq!(rt; record.store().read(Space::Memory, 0, 15), 5);
    let ended = Ended {
        log: sent(record),
        procs: List::of(vec![in rt.alloc(); ProcEnd { after: 7, steps: 1 }]?),
    };
    assert_eq!(rt; ended.procs.as_slice().len(), 1);
    Ok(())
}

#[test]
fn a_write_reaches_its_enabled_bytes_alone(rt: HostRuntime) -> Result<(), Fail> {
    let mut record = Record::new(rt.alloc(), Store::new(rt.alloc(), 4096)?);
    assert_eq!(rt;
        record.put(0, plain(Space::Memory, true, 8, 15, 0x4433_2211))?,
        0
    );
    assert_eq!(rt;
        record.put(0, plain(Space::Memory, true, 8, 6, 0x00bb_aa00))?,
        0
    );
    assert_eq!(rt;
        record.put(0, plain(Space::Memory, false, 8, 15, 0))?,
        0x44bb_aa11
    );
    assert_eq!(rt;
        record.put(0, plain(Space::Memory, false, 8, 8, 0))?,
        0x4400_0000
    );
    Ok(())
}

#[test]
fn past_memory_all_is_ones(rt: HostRuntime) -> Result<(), Fail> {
    let mut record = Record::new(rt.alloc(), Store::new(rt.alloc(), 4096)?);
    assert_eq!(rt; record.put(0, plain(Space::Memory, true, 4096, 1, 5))?, 0);
    assert_eq!(rt; record.put(0, plain(Space::Memory, false, 0, 1, 0))?, 0);
    assert_eq!(rt;
        record.put(0, plain(Space::Memory, false, 4096, 3, 0))?,
        0xffff
    );
    assert_eq!(rt;
        record.put(0, plain(Space::Memory, false, 0xffff_fffc, 8, 0))?,
        0xff00_0000
    );
    Ok(())
}

#[test]
fn few_bytes_are_poked_and_read(rt: HostRuntime) -> Result<(), Fail> {
    let mut bus = FixedBus::<6>::new();
    bus.poke(5, 7);
    assert_eq!(rt;
        bus.cycle(plain(Space::Memory, false, 4, 15, 0), false),
        Ok(0xffff_0700)
    );
    assert_eq!(rt;
        bus.cycle(plain(Space::Memory, true, 4, 15, 0x0403_0201), false),
        Ok(0)
    );
    assert_eq!(rt;
        bus.cycle(plain(Space::Memory, false, 4, 15, 0), false),
        Ok(0xffff_0201)
    );
    assert_eq!(rt;
        bus.cycle(plain(Space::Memory, false, 0, 15, 0), false),
        Ok(0)
    );
    assert_eq!(rt; bus.cycle(plain(Space::Port, false, 4, 1, 0), false), Ok(0));
    assert_eq!(rt; bus.cycles().len(), 5);
    bus.clear();
    assert_eq!(rt; bus.cycles().len(), 0);
    assert_eq!(rt;
        bus.cycle(plain(Space::Memory, false, 4, 1, 0), false),
        Ok(1)
    );
    Ok(())
}

#[test]
fn a_fixed_bus_pauses_at_192_cycles(rt: HostRuntime) {
    let mut bus = FixedBus::<4>::new();
    for count in 0..192 {
        assert_eq!(rt;
            bus.cycle(plain(Space::Memory, false, 0, 1, 0), false),
            Ok(0),
            "cycle {count}"
        );
    }
    assert_eq!(rt;
        bus.cycle(plain(Space::Memory, false, 0, 1, 0), false),
        Err(Stop::Paused)
    );
    assert_eq!(rt; bus.cycles().len(), 192);
}
