//! The line of a task.
ghost use Rattle.std.specs.Prelude.{◌≡◌, ◌+◌, ◌*◌, ◌<◌, ◌≤◌, ◌↔◌, ◌++◌, ◌∷◌, ◌%◌, ◌^◌, [], Some, None, length, codes};
ghost use Rattle.arrayvec.specs.ArrayString.{array_string_len};
ghost use Rattle.m386_base.specs.declared.ask.Space.TheVariants.{Memory};
ghost use Rattle.m386_desc.specs.Access.{kind_of};
ghost use Rattle.m386_desc.specs.Offsets.{limit_of};
ghost use Rattle.m386_memory.specs.Contents.{byte_in};
ghost use Rattle.m386_tss.specs.Fields.{field_at};
ghost use Rattle.m386_trace.specs.Line.{hex4, hex8, line_text, spaced};
ghost use Rattle.m386_trace.specs.Tasks.{busy_word, descriptor_at, doubleword_at, field_digits, field_name, fields_below, task_fields, task_text, tss_busy, word_at};

use crate::field::{push_hex4, push_hex8, push_word};
use arrayvec::ArrayString;
use m386_base::ask::Space;
use m386_base::desc::Desc;
use m386_desc::access::kind;
use m386_desc::bytes::desc_of;
use m386_desc::kind::Kind;
use m386_desc::offsets::limit;
use m386_image::image::TableAt;
use m386_memory::store::Store;
use m386_tss::fields::{Field, tss_field};

/// A line that has room for each field of a task.
type TaskLine = ArrayString<512>;

/// How many fields a task state segment has.
const FIELDS: u8 = 27;

/// The byte at an address of memory.
fn byte(store: &Store, addr: u32) -> u8
    ensures { result ≡ byte_in store.now Memory addr }
{
    (store.read(Space::Memory, addr, 1) % 0x100) as u8
}

/// The word at a linear address, which comes round at 2^32.
#[tactic(auto, unfolding(crate::specs::Tasks::word_at))]
fn word(store: &Store, addr: u32) -> u16
    ensures { result ≡ word_at (byte_in store.now Memory) addr }
{
    u16::from_le_bytes([byte(store, addr), byte(store, addr.wrapping_add(1))])
}

/// The doubleword at a linear address, which comes round at 2^32.
#[tactic(auto, unfolding(crate::specs::Tasks::doubleword_at))]
fn doubleword(store: &Store, addr: u32) -> u32
    ensures { result ≡ doubleword_at (byte_in store.now Memory) addr }
{
    let second = addr.wrapping_add(1);
    let third = second.wrapping_add(1);
    let fourth = third.wrapping_add(1);
    u32::from_le_bytes([
        byte(store, addr),
        byte(store, second),
        byte(store, third),
        byte(store, fourth),
    ])
}

/// The descriptor of a number in a table.
#[tactic(auto, unfolding(crate::specs::Tasks::descriptor_at))]
fn descriptor(store: &Store, table: TableAt, number: u16) -> Desc
    requires { number * 8 + 7 ≤ table.limit }
    ensures { result ≡ descriptor_at (byte_in store.now Memory) table number }
{
    let low = table.base.wrapping_add(u32::from(number) * 8);
    let high = low.wrapping_add(4);
    desc_of(doubleword(store, low), doubleword(store, high))
}

/// The name of a field of a task state segment, by its number.
#[tactic(auto, unfolding(crate::specs::Tasks::field_name))]
fn name_of(number: u8) -> &'static str
    requires { number < 27 }
    ensures name { result.now ≡ field_name number }
    ensures short { length result.now ≤ 4 }
{
    match number {
        0 => "link",
        1 => "esp0",
        2 => "ss0",
        3 => "esp1",
        4 => "ss1",
        5 => "esp2",
        6 => "ss2",
        7 => "cr3",
        8 => "eip",
        9 => "efl",
        10 => "eax",
        11 => "ecx",
        12 => "edx",
        13 => "ebx",
        14 => "esp",
        15 => "ebp",
        16 => "esi",
        17 => "edi",
        18 => "es",
        19 => "cs",
        20 => "ss",
        21 => "ds",
        22 => "fs",
        23 => "gs",
        24 => "ldt",
        25 => "trap",
        26 => "map",
        _ => unreachable!(),
    }
}

/// Appends the value of a field of the segment at a base.
#[tactic(auto, unfolding(crate::specs::Tasks::field_digits))]
fn push_value(line: &mut TaskLine, store: &Store, base: u32, field: Field)
    requires { array_string_len line.old + 9 ≤ 512 }
    ensures bytes { line.new.bytes ≡ line.old.bytes ++ spaced (field_digits (byte_in store.now Memory) base field ∷ []) }
    ensures len { array_string_len line.new ≤ array_string_len line.old + 9 }
{
    let at = base.wrapping_add(u32::from(field.offset));
    if field.len == 4 {
        push_hex8(line, doubleword(store, at));
    } else {
        push_hex4(line, word(store, at));
    }
}

/// Appends name and value of the field of a number.
fn push_field(line: &mut TaskLine, store: &Store, base: u32, number: u8)
    requires number { number < 27 }
    requires room { array_string_len line.old + 14 ≤ 512 }
    ensures bytes { line.new.bytes ≡ line.old.bytes ++ spaced (field_name number ∷ field_digits (byte_in store.now Memory) base (field_at number) ∷ []) }
    ensures len { array_string_len line.new ≤ array_string_len line.old + 14 }
{
    push_word(line, name_of(number));
    push_value(line, store, base, tss_field(number));
}

/// Appends name and value of each field of the segment at a base.
fn push_fields(line: &mut TaskLine, store: &Store, base: u32)
    requires { array_string_len line.old ≤ 64 }
    ensures bytes { line.new.bytes ≡ line.old.bytes ++ spaced (fields_below (byte_in store.now Memory) base 27) }
    ensures len { array_string_len line.new ≤ 442 }
{
    for number in 0..FIELDS {
        push_field(line, store, base, number);
    }
}

/// The word for a TSS that a task is marked as being in, or not.
fn word_of(busy: bool) -> &'static str
    ensures word { result.now ≡ busy_word busy }
    ensures short { length result.now ≡ 4 }
{
    if busy { "busy" } else { "free" }
}

/// Appends the fields of a task that stand before those of its segment.
fn push_head(line: &mut TaskLine, number: u16, desc: &Desc, busy: bool)
    requires number { number * 8 < 2 ^ 16 }
    requires room { array_string_len line.old + 39 ≤ 512 }
    ensures bytes { line.new.bytes ≡ line.old.bytes ++ spaced (hex4 (number * 8) ∷ busy_word busy ∷ codes "base" ∷ hex8 desc.now.base ∷ codes "limit" ∷ hex8 (limit_of desc.now) ∷ []) }
    ensures len { array_string_len line.new ≡ array_string_len line.old + 39 }
{
    push_hex4(line, number * 8);
    push_word(line, word_of(busy));
    push_word(line, "base");
    push_hex8(line, desc.base);
    push_word(line, "limit");
    push_hex8(line, limit(desc));
}

/// The line of a task.
fn line_of(store: &Store, number: u16, desc: &Desc, busy: bool) -> TaskLine
    requires { number * 8 < 2 ^ 16 }
    ensures { result.bytes ≡ line_text (codes "t") (task_fields (byte_in store.now Memory) number desc.now busy) }
{
    let mut line = ArrayString::new();
    line.push_str("t");
    push_head(&mut line, number, desc, busy);
    push_fields(&mut line, store, desc.base);
    line.push_str("\n");
    line
}

/// The line of a task with its line feed: of the descriptor with this number in a table, from 1, its selector, whether a task is marked
/// as being in it, base and limit, and the fields of its segment (PRM 7.1, 7.2). `None` exactly where the descriptor is of no 386 TSS.
/// It takes no memory.
#[tactic(auto, unfolding(crate::specs::Tasks::task_text))]
pub fn task_line(store: &Store, table: TableAt, number: u16) -> Option<ArrayString<512>>
    requires from { 1 ≤ number }
    requires within { number * 8 + 7 ≤ table.limit }
    ensures text { (line : _) → result ≡ Some line → task_text (byte_in store.now Memory) table number ≡ Some line.bytes }
    ensures none { (result ≡ None) ↔ (tss_busy (kind_of (descriptor_at (byte_in store.now Memory) table number)) ≡ None) }
{
    let desc = descriptor(store, table, number);
    match kind(&desc) {
        Kind::Tss { busy } => Some(line_of(store, number, &desc, busy)),
        _ => None,
    }
}
