//! What a case says of a processor and of memory, before its instruction or after it.

use hex::decode_to_slice;

/// The address of the instruction.
pub const CODE: u32 = 0x1000;

/// The address of the bytes that an instruction may reach.
pub const AREA: u32 = 0x2000;

/// How many bytes an instruction may reach.
pub const AREA_SIZE: usize = 64;

/// The registers, the flags, the exception and the memory of a case.
#[derive(Clone, Copy)]
pub struct State {
    /// EAX, ECX, EDX, EBX, ESP, EBP, ESI, EDI.
    pub registers: [u32; 8],
    /// EFLAGS.
    pub flags: u32,
    /// The bits of EFLAGS that the manual leaves undefined after the instruction.
    pub undefined: u32,
    /// The vector of the exception that the instruction raised.
    pub vector: Option<u8>,
    /// The bytes from 2000h on.
    pub area: [u8; AREA_SIZE],
}

/// The state that the words of a case begin with. No two of its registers or neighbouring bytes are the same.
pub const FIRST: State = State {
    registers: [
        0xa0a1_a2a3,
        0xc0c1_c2c3,
        0xd0d1_d2d3,
        0xb0b1_b2b3,
        0x4041_4243,
        0x5051_5253,
        0x6061_6263,
        0x7071_7273,
    ],
    flags: 2,
    undefined: 0,
    vector: None,
    area: [
        0x11, 0x22, 0x33, 0x44, 0x55, 0x66, 0x77, 0x88, 0x99, 0xaa, 0xbb, 0xcc, 0xdd, 0xee, 0xff,
        0x10, 0x21, 0x32, 0x43, 0x54, 0x65, 0x76, 0x87, 0x98, 0xa9, 0xba, 0xcb, 0xdc, 0xed, 0xfe,
        0x0f, 0x20, 0x31, 0x42, 0x53, 0x64, 0x75, 0x86, 0x97, 0xa8, 0xb9, 0xca, 0xdb, 0xec, 0xfd,
        0x0e, 0x1f, 0x30, 0x41, 0x52, 0x63, 0x74, 0x85, 0x96, 0xa7, 0xb8, 0xc9, 0xda, 0xeb, 0xfc,
        0x0d, 0x1e, 0x2f, 0x40,
    ],
};

/// A number in hexadecimal digits.
fn number(text: &str) -> Option<u32> {
    u32::from_str_radix(text, 16).ok()
}

/// Sets the flags, `VALUE/UNDEFINED`.
fn set_flags(state: &mut State, value: &str) -> Option<()> {
    let (flags, undefined) = value.split_once('/')?;
    state.flags = number(flags)?;
    state.undefined = number(undefined)?;
    Some(())
}

/// Sets the bytes from an address of four digits on.
fn set_bytes(state: &mut State, address: &str, value: &str) -> Option<()> {
    let begin = number(address)?.checked_sub(AREA)? as usize;
    let end = begin.checked_add(value.len() / 2)?;
    decode_to_slice(value, state.area.get_mut(begin..end)?).ok()
}

/// Sets what one word says: `f=VALUE/UNDEFINED` the flags, `v=VECTOR` an exception, `R=VALUE` the register of the number R,
/// and `ADDRESS=BYTES` memory. All numbers are hexadecimal. `None`: the word is none of these.
fn set(state: &mut State, word: &str) -> Option<()> {
    let (name, value) = word.split_once('=')?;
    if name == "f" {
        return set_flags(state, value);
    }
    if name == "v" {
        state.vector = Some(u8::try_from(number(value)?).ok()?);
        return Some(());
    }
    if name.len() > 1 {
        return set_bytes(state, name, value);
    }
    *state.registers.get_mut(number(name)? as usize)? = number(value)?;
    Some(())
}

/// The state with all that the words say.
pub fn changed(state: &State, words: &str) -> Option<State> {
    let mut changed = *state;
    for word in words.split_whitespace() {
        set(&mut changed, word)?;
    }
    Some(changed)
}
