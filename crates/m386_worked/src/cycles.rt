//! The cycles of a case.
use m386_base::ask::{Ask, Role, Space};

/// A cycle of memory on the bytes of a group, not joined to the one before it.
pub fn cycle(role: Role, write: bool, part: u8, addr: u32, enables: u8, value: u32) -> Ask {
    Ask {
        space: Space::Memory,
        write,
        joined: false,
        role,
        part,
        addr,
        enables,
        value,
    }
}

/// A code group, read.
pub fn fetch(addr: u32, value: u32) -> Ask {
    cycle(Role::Fetch, false, 0, addr, 15, value)
}

/// A group of an operand, read.
pub fn read(part: u8, addr: u32, enables: u8, value: u32) -> Ask {
    cycle(Role::Operand, false, part, addr, enables, value)
}

/// The same, written.
pub fn write(part: u8, addr: u32, enables: u8, value: u32) -> Ask {
    cycle(Role::Operand, true, part, addr, enables, value)
}

/// The same cycle, joined to the one before it.
pub fn joined(ask: Ask) -> Ask {
    Ask {
        joined: true,
        ..ask
    }
}

/// The low doubleword of a descriptor in the GDT, read.
pub fn low(addr: u32, value: u32) -> Ask {
    cycle(Role::Gdt, false, 0, addr, 15, value)
}

/// The high one.
pub fn high(addr: u32, value: u32) -> Ask {
    joined(low(addr, value))
}
