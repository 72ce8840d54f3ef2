//! String operations: each name and width, once and repeated, forward and backward; and repetitions, turn by turn. The source
//! is at 1010h and the destination at 1014h. Flags are numbers: CF 1, PF 4, AF 10h, ZF 40h, SF 80h, TF 100h, DF 400h, OF 800h,
//! and bit 1, which is always 1.
use super::{Case, at, bare, fetch, flagged, read, step_over_bytes, step_over_values, write};
use m386_base::ask::Ask;
use m386_base::number::Flags;
use m386_state::proc::Proc;
use std::process::Abort;

/// The places of EAX, ECX, ESI and EDI.
const EAX: usize = 0;

const ECX: usize = 1;

const ESI: usize = 6;

const EDI: usize = 7;

/// An operation on one element: what it does where DF is 0 and it isn't repeated.
#[derive(Clone, Copy)]
struct Row<'a> {
    name: &'a str,
    /// Its bytes, the first the lowest, as a number.
    code: u32,
    /// How many bytes an element has.
    len: u32,
    /// Whether ESI and EDI move.
    moves: [bool; 2],
    /// Its cycles but the fetch.
    cycles: &'a [Ask],
    /// EAX behind it.
    eax: u32,
    /// The flags behind it.
    flags: u32,
    /// Whether a further turn follows it with F3h, and with F2h.
    goes_on: [bool; 2],
}

/// A processor with so many elements to do, whose AL, AX and EAX are the element at the destination.
fn ready(count: u32) -> Proc {
    let mut p = bare();
    p.regs[EAX] = 0x8877_6655;
    p.regs[ECX] = count;
    p.regs[ESI] = 0x1010;
    p.regs[EDI] = 0x1014;
    p
}

/// The state with these values of ECX, ESI and EDI.
fn moved(p: &Proc, ecx: u32, esi: u32, edi: u32) -> Proc {
    let mut after = *p;
    after.regs[ECX] = ecx;
    after.regs[ESI] = esi;
    after.regs[EDI] = edi;
    after
}

/// An index register behind the element of a row.
fn index(offset: u32, moves: bool, backward: bool, len: u32) -> u32 {
    match (moves, backward) {
        (false, _) => offset,
        (true, false) => offset.wrapping_add(len),
        (true, true) => offset.wrapping_sub(len),
    }
}

/// The state behind the element of a row that has as many bytes as `eip` says, of a repetition or not.
fn behind(row: &Row<'_>, backward: bool, repeated: bool, eip: u32) -> Proc {
    let mut after = moved(
        &at(&bare(), eip),
        if repeated { 1 } else { 2 },
        index(0x1010, row.moves[0], backward, row.len),
        index(0x1014, row.moves[1], backward, row.len),
    );
    after.regs[EAX] = row.eax;
    after.eflags = Flags(if backward {
        row.flags | 0x400
    } else {
        row.flags
    });
    after
}

/// A row as one step, with its bytes and the state behind it.
fn one(rt: &impl Abort, row: &Row<'_>, backward: bool, code: u32, after: Proc) {
    let mut cycles = [fetch(0x1000, code); 3];
    assert!(rt; row.cycles.len() < cycles.len());
    for (i, ask) in row.cycles.iter().enumerate() {
        cycles[i + 1] = *ask;
    }
    let case = Case {
        name: row.name,
        before: flagged(&ready(2), if backward { 0x402 } else { 2 }),
        code: &code.to_le_bytes(),
        cycles: &cycles[..row.cycles.len() + 1],
        after,
    };
    step_over_bytes(rt, &case);
    step_over_values(rt, &case);
}

/// A row once, with F3h and with F2h, both ways.
fn all_ways(rt: &impl Abort, row: &Row<'_>) {
    let last = if row.code < 0x100 { 0x1001 } else { 0x1002 };
    for backward in [false, true] {
        one(
            rt,
            row,
            backward,
            row.code,
            behind(row, backward, false, last),
        );
        for (prefix, goes_on) in [(0xf3, row.goes_on[0]), (0xf2, row.goes_on[1])] {
            let eip = if goes_on { 0x1000 } else { last + 1 };
            let code = row.code << 8 | prefix;
            one(rt, row, backward, code, behind(row, backward, true, eip));
        }
    }
}

#[test]
fn elements_are_moved_stored_and_loaded(rt: HostRuntime) {
    let repeated = [true, true];
    let eax = 0x8877_6655;
    let rows = [
        Row {
            name: "MOVSB",
            code: 0xa4,
            len: 1,
            moves: [true, true],
            cycles: &[read(0, 0x1010, 1, 0x11), write(0, 0x1014, 1, 0x11)],
            eax,
            flags: 2,
            goes_on: repeated,
        },
        Row {
            name: "MOVSW",
            code: 0xa566,
            len: 2,
            moves: [true, true],
            cycles: &[read(0, 0x1010, 3, 0x2211), write(0, 0x1014, 3, 0x2211)],
            eax,
            flags: 2,
            goes_on: repeated,
        },
        Row {
            name: "MOVSD",
            code: 0xa5,
            len: 4,
            moves: [true, true],
            cycles: &[
                read(0, 0x1010, 15, 0x4433_2211),
                write(0, 0x1014, 15, 0x4433_2211),
            ],
            eax,
            flags: 2,
            goes_on: repeated,
        },
        Row {
            name: "STOSB",
            code: 0xaa,
            len: 1,
            moves: [false, true],
            cycles: &[write(0, 0x1014, 1, 0x55)],
            eax,
            flags: 2,
            goes_on: repeated,
        },
        Row {
            name: "STOSW",
            code: 0xab66,
            len: 2,
            moves: [false, true],
            cycles: &[write(0, 0x1014, 3, 0x6655)],
            eax,
            flags: 2,
            goes_on: repeated,
        },
        Row {
            name: "STOSD",
            code: 0xab,
            len: 4,
            moves: [false, true],
            cycles: &[write(0, 0x1014, 15, 0x8877_6655)],
            eax,
            flags: 2,
            goes_on: repeated,
        },
        Row {
            name: "LODSB",
            code: 0xac,
            len: 1,
            moves: [true, false],
            cycles: &[read(0, 0x1010, 1, 0x11)],
            eax: 0x8877_6611,
            flags: 2,
            goes_on: repeated,
        },
        Row {
            name: "LODSW",
            code: 0xad66,
            len: 2,
            moves: [true, false],
            cycles: &[read(0, 0x1010, 3, 0x2211)],
            eax: 0x8877_2211,
            flags: 2,
            goes_on: repeated,
        },
        Row {
            name: "LODSD",
            code: 0xad,
            len: 4,
            moves: [true, false],
            cycles: &[read(0, 0x1010, 15, 0x4433_2211)],
            eax: 0x4433_2211,
            flags: 2,
            goes_on: repeated,
        },
    ];
    for row in &rows {
        all_ways(&rt, row);
    }
}

#[test]
fn elements_are_compared(rt: HostRuntime) {
    let eax = 0x8877_6655;
    let rows = [
        Row {
            name: "CMPSB of 11h and 55h",
            code: 0xa6,
            len: 1,
            moves: [true, true],
            cycles: &[read(0, 0x1010, 1, 0x11), read(0, 0x1014, 1, 0x55)],
            eax,
            flags: 0x93,
            goes_on: [false, true],
        },
        Row {
            name: "CMPSW of 2211h and 6655h",
            code: 0xa766,
            len: 2,
            moves: [true, true],
            cycles: &[read(0, 0x1010, 3, 0x2211), read(0, 0x1014, 3, 0x6655)],
            eax,
            flags: 0x93,
            goes_on: [false, true],
        },
        Row {
            name: "CMPSD of 44332211h and 88776655h",
            code: 0xa7,
            len: 4,
            moves: [true, true],
            cycles: &[
                read(0, 0x1010, 15, 0x4433_2211),
                read(0, 0x1014, 15, 0x8877_6655),
            ],
            eax,
            flags: 0x893,
            goes_on: [false, true],
        },
        Row {
            name: "SCASB for 55h",
            code: 0xae,
            len: 1,
            moves: [false, true],
            cycles: &[read(0, 0x1014, 1, 0x55)],
            eax,
            flags: 0x46,
            goes_on: [true, false],
        },
        Row {
            name: "SCASW for 6655h",
            code: 0xaf66,
            len: 2,
            moves: [false, true],
            cycles: &[read(0, 0x1014, 3, 0x6655)],
            eax,
            flags: 0x46,
            goes_on: [true, false],
        },
        Row {
            name: "SCASD for 88776655h",
            code: 0xaf,
            len: 4,
            moves: [false, true],
            cycles: &[read(0, 0x1014, 15, 0x8877_6655)],
            eax,
            flags: 0x46,
            goes_on: [true, false],
        },
    ];
    for row in &rows {
        all_ways(&rt, row);
    }
}

/// String operations with FS, whose base is 4, and at the ends of segments.
pub(crate) const PREFIXES: &str = "\
start eax=88776655 ecx=1 esi=1010 edi=1010 es=18:0:1010:93:4 fs=20:4:ffff:93:4
FS: MOVSB
 bytes 64 a4
 r fetch 0 1000 f a464
 r data 0 1014 1 55
 w data 0 1010 1 55
 after eip=1002 esi=1011 edi=1011
FS: CMPSB of 55h and 11h
 bytes 64 a6
 r fetch 0 1000 f a664
 r data 0 1014 1 55
 r data 0 1010 1 11
 after eip=1002 esi=1011 edi=1011 flags=6
FS: STOSB
 bytes 64 aa
 r fetch 0 1000 f aa64
 w data 0 1010 1 55
 after eip=1002 edi=1011
CMPSB past the limit of ES, whose first read stands
 before edi=ffffffff
 bytes a6
 r fetch 0 1000 f a6
 r data 0 1010 1 11
 after pending=d:0
STOSB at the last offset of all
 before esi=0 edi=ffffffff es=10:0:fffff:93:c fs=10:0:fffff:93:c
 bytes aa
 r fetch 0 1000 f aa
 w data 0 fffffffc 8 55000000
 after eip=1001 edi=0
LODSB backward at offset 0
 before esi=0 edi=ffffffff flags=402 es=10:0:fffff:93:c fs=10:0:fffff:93:c
 bytes ac
 r fetch 0 1000 f ac
 r data 0 0 1 0
 after eip=1001 eax=88776600 esi=ffffffff
";

/// A store of two elements, turn by turn.
pub(crate) const STORES: &str = "\
start eax=88776655 ecx=2 esi=1010 edi=1010
REP STOSD of two elements: the first
 bytes f3 ab
 r fetch 0 1000 f abf3
 w data 0 1010 f 88776655
 after ecx=1 edi=1014
the second
 then
 r fetch 0 1000 f abf3
 w data 0 1014 f 88776655
 after ecx=0 edi=1018
the turn behind them
 then
 r fetch 0 1000 f abf3
 after eip=1002
";

/// Comparisons, turn by turn.
pub(crate) const COMPARISONS: &str = "\
# These differ before the count is used up.
start eax=88776655 ecx=3 esi=1010 edi=1004
REPZ CMPSB of 11h 22h and 11h 99h: the first
 bytes f3 a6 00 00 11 99
 r fetch 0 1000 f a6f3
 r data 0 1010 1 11
 r data 0 1004 1 11
 after ecx=2 esi=1011 edi=1005 flags=46
the second
 then
 r fetch 0 1000 f a6f3
 r data 0 1010 2 2200
 r data 0 1004 2 9900
 after eip=1002 ecx=1 esi=1012 edi=1006 flags=893
# None of these are equal.
start eax=88776655 ecx=2 esi=1010 edi=1014
REPNZ CMPSB of 11h 22h and 55h 66h: the first
 bytes f2 a6
 r fetch 0 1000 f a6f2
 r data 0 1010 1 11
 r data 0 1014 1 55
 after ecx=1 esi=1011 edi=1015 flags=93
the second
 then
 r fetch 0 1000 f a6f2
 r data 0 1010 2 2200
 r data 0 1014 2 6600
 after ecx=0 esi=1012 edi=1016
the turn behind them
 then
 r fetch 0 1000 f a6f2
 after eip=1002
";

/// A move over the limit of ES, turn by turn.
pub(crate) const FAULTS: &str = "\
# The read of the second element stands, and its write faults.
start eax=88776655 ecx=3 esi=1010 edi=1014 es=18:0:1014:93:4
REP MOVSB over the limit of ES: the first
 bytes f3 a4
 r fetch 0 1000 f a4f3
 r data 0 1010 1 11
 w data 0 1014 1 11
 after ecx=2 esi=1011 edi=1015
the second
 then
 r fetch 0 1000 f a4f3
 r data 0 1010 2 2200
 after pending=d:0
";

/// A store over its own opcode, turn by turn.
pub(crate) const ANEW: &str = "\
start eax=90 ecx=2 esi=1010 edi=1001
REP STOSB over its own opcode, which NOP takes the place of
 bytes f3 aa
 r fetch 0 1000 f aaf3
 w data 0 1000 2 9000
 after ecx=1 edi=1002
the NOP
 then
 r fetch 0 1000 f 90f3
 after eip=1002
";

/// Repetitions with TF set.
pub(crate) const TRACED: &str = "\
start eax=88776655 ecx=1 esi=1010 edi=1014 flags=102
REP LODSB with TF set
 bytes f3 ac
 r fetch 0 1000 f acf3
 r data 0 1010 1 11
 after eax=88776611 ecx=0 esi=1011 pending=1
REP STOSB with TF set and ECX 0, past the limit of ES
 before ecx=0 es=18:0:0:93:4
 bytes f3 aa
 r fetch 0 1000 f aaf3
 after eip=1002 pending=1
";
