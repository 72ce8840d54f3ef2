//! No operation of the opcode table is left out: with memory and with a register a spelling of each row is stepped, and no step ends in #UD.
use super::{at, bare, bus_of};
use m386_opmap::outcome::Reading;
use m386_opmap::reading::reading;
use m386_opmap::row::Row;
use m386_opmap::rows::OPCODE_ROWS;
use m386_state::proc::{Mode, Proc};
use m386_step::alone::step_alone;
use std::process::Abort;

/// A ModRM byte that names memory at an address of 32 bits, and one that names register 3. Their middle bits are 0.
const PLACES: [u8; 2] = [0x05, 0xc3];

/// A row's first opcode and `/n` before the address 1010h, which are also a number, a distance or a far pointer.
fn bytes_by(row: &Row, place: u8) -> [u8; 12] {
    let opcode = row.low / 8;
    let last = (opcode % 256) as u8;
    let modrm = place | (row.low % 8 * 8) as u8;
    if opcode >= 0xf00 {
        [0x0f, last, modrm, 0x10, 0x10, 0, 0, 0, 0, 0, 0, 0]
    } else {
        [last, modrm, 0x10, 0x10, 0, 0, 0, 0, 0, 0, 0, 0]
    }
}

/// The state behind a step over these bytes.
fn behind(rt: &impl Abort, code: &[u8; 12]) -> Proc {
    let mut p = at(&bare(), 0x1000);
    let mut bus = bus_of(code);
    assert!(rt; p.mode != Mode::Shutdown);
    step_alone(&mut p, &mut bus);
    p
}

/// Whether the bytes spell the row's operation. A step of it doesn't leave #UD pending, and of bytes that spell none it does.
fn is_built(rt: &impl Abort, row: &Row, code: &[u8; 12]) -> bool {
    let spelled = match reading(code) {
        Reading::Spelled { op, .. } => op.name == row.name,
        _ => false,
    };
    let undefined = match behind(rt, code).pending {
        Some(event) => event.vector == 6,
        None => false,
    };
    assert_eq!(rt; undefined, !spelled, "{row:?}");
    spelled
}

#[test]
fn no_row_of_the_opcode_table_is_left_undefined(rt: HostRuntime) {
    let mut rows = 0usize;
    for row in &OPCODE_ROWS {
        let [memory, register] = PLACES.map(|place| is_built(&rt, row, &bytes_by(row, place)));
        assert!(rt; memory || register, "{row:?}");
        rows = rows.saturating_add(1);
    }
    assert_eq!(rt; rows, 327);
}
