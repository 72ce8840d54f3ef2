//! What IN and OUT move, and where.
ghost use Rattle.std.specs.Prelude.{◌≡◌};
ghost use Rattle.m386_iomap.specs.Transfer.{direction_of, port_of, transfer_at, transfer_of};

use m386_access::after::register_of;
use m386_access::operands::{Operands, Place};
use m386_opmap::name::Name;
use m386_state::proc::Proc;

/// Which way a transfer goes.
#[derive(Clone, Copy, Debug, PartialEq, Eq)]
pub enum Direction {
    /// IN: from ports to a register.
    In,
    /// OUT: from a register to ports.
    Out,
}

/// A transfer between a general register and ports.
#[derive(Clone, Copy, Debug, PartialEq, Eq)]
pub struct Transfer {
    /// Which way it goes.
    pub direction: Direction,
    /// The number of the register: AL, AX or EAX in what an instruction spells.
    pub register: u8,
    /// The first port.
    pub port: u16,
}

/// Which way the operation of a name moves bytes, where it is IN or OUT.
pub fn direction_of(name: Name) -> Option<Direction>
    ensures { result ≡ direction_of name }
{
    match name {
        Name::In => Some(Direction::In),
        Name::Out => Some(Direction::Out),
        _ => None,
    }
}

/// The port that an operand gives: a register of 16 bits, or a number of the instruction.
fn port_of(p: &Proc, operand: Place) -> Option<u16>
    ensures { result ≡ port_of p.now operand }
{
    match operand {
        Place::Register(register) => Some((register_of(p, register) % 0x1_0000) as u16),
        Place::Number(number) => Some((number % 0x1_0000) as u16),
        Place::Memory(_) | Place::Other => None,
    }
}

/// A transfer, where there is a port.
fn transfer_at(direction: Direction, register: u8, port: Option<u16>) -> Option<Transfer>
    ensures { result ≡ transfer_at direction register port }
{
    match port {
        Some(port) => Some(Transfer {
            direction,
            register,
            port,
        }),
        None => None,
    }
}

/// The transfer of an operation by its operands, the destination first: IN has the register first, and OUT the port.
pub fn transfer_of(p: &Proc, direction: Option<Direction>, operands: Operands) -> Option<Transfer>
    ensures { result ≡ transfer_of p.now direction operands }
{
    match (direction, operands) {
        (Some(Direction::In), Operands::Two(Place::Register(register), port)) => {
            transfer_at(Direction::In, register, port_of(p, port))
        }
        (Some(Direction::Out), Operands::Two(port, Place::Register(register))) => {
            transfer_at(Direction::Out, register, port_of(p, port))
        }
        _ => None,
    }
}
