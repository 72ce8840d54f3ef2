//! The line of a processor.
ghost use Rattle.std.specs.Prelude.{◌≡◌, ◌+◌, ◌<◌, ◌≤◌, ◌++◌, ◌∷◌, [], length};
ghost use Rattle.arrayvec.specs.ArrayString.{array_string_len};
ghost use Rattle.m386_state.specs.Start.{seg_at};
ghost use Rattle.m386_trace.specs.Line.{spaced, hex4, hex8};
ghost use Rattle.m386_trace.specs.Report.{code_field, pending_fields, proc_text, register_fields, selector_fields};

use crate::field::{push_decimal, push_hex2, push_hex4, push_hex8, push_word};
use crate::words::mode_word;
use arrayvec::ArrayString;
use m386_memory::ended::ProcEnd;
use m386_state::event::Event;
use m386_state::proc::Proc;

/// A line that has room for each field of a processor.
type ProcLine = ArrayString<512>;

/// Appends a register of 32 bits behind its name.
fn push_register(line: &mut ProcLine, name: &str, value: u32)
    requires { array_string_len line.old + length name.now + 10 ≤ 512 }
    ensures bytes { line.new.bytes ≡ line.old.bytes ++ spaced (name.now ∷ hex8 value ∷ []) }
    ensures len { array_string_len line.new ≡ array_string_len line.old + length name.now + 10 }
{
    push_word(line, name);
    push_hex8(line, value);
}

/// Appends a selector behind the name of its register.
fn push_selector(line: &mut ProcLine, name: &str, selector: u16)
    requires { array_string_len line.old + length name.now + 6 ≤ 512 }
    ensures bytes { line.new.bytes ≡ line.old.bytes ++ spaced (name.now ∷ hex4 selector ∷ []) }
    ensures len { array_string_len line.new ≡ array_string_len line.old + length name.now + 6 }
{
    push_word(line, name);
    push_hex4(line, selector);
}

/// Appends the registers of 32 bits but CR0.
fn push_registers(line: &mut ProcLine, p: &Proc)
    requires { array_string_len line.old + 130 ≤ 512 }
    ensures bytes { line.new.bytes ≡ line.old.bytes ++ spaced (register_fields p.now) }
    ensures len { array_string_len line.new ≡ array_string_len line.old + 130 }
{
    push_register(line, "eip", p.eip);
    push_register(line, "efl", p.eflags.0);
    push_register(line, "eax", p.regs[0]);
    push_register(line, "ecx", p.regs[1]);
    push_register(line, "edx", p.regs[2]);
    push_register(line, "ebx", p.regs[3]);
    push_register(line, "esp", p.regs[4]);
    push_register(line, "ebp", p.regs[5]);
    push_register(line, "esi", p.regs[6]);
    push_register(line, "edi", p.regs[7]);
}

/// The selector of ES, CS, SS, DS, FS or GS, by its number.
fn selector(p: &Proc, number: usize) -> u16
    requires { number < 6 }
    ensures { result ≡ (seg_at p.now number).selector }
{
    p.segs[number].selector
}

/// Appends the selectors.
fn push_selectors(line: &mut ProcLine, p: &Proc)
    requires { array_string_len line.old + 65 ≤ 512 }
    ensures bytes { line.new.bytes ≡ line.old.bytes ++ spaced (selector_fields p.now) }
    ensures len { array_string_len line.new ≡ array_string_len line.old + 65 }
{
    push_selector(line, "es", selector(p, 0));
    push_selector(line, "cs", selector(p, 1));
    push_selector(line, "ss", selector(p, 2));
    push_selector(line, "ds", selector(p, 3));
    push_selector(line, "fs", selector(p, 4));
    push_selector(line, "gs", selector(p, 5));
    push_selector(line, "ldt", p.ldtr.selector);
    push_selector(line, "tr", p.tr.selector);
}

/// Appends an error code.
fn push_code(line: &mut ProcLine, code: Option<u16>)
    requires { array_string_len line.old + 5 ≤ 512 }
    ensures bytes { line.new.bytes ≡ line.old.bytes ++ spaced (code_field code ∷ []) }
    ensures len { array_string_len line.new ≤ array_string_len line.old + 5 }
{
    match code {
        None => push_word(line, "-"),
        Some(code) => push_hex4(line, code),
    }
}

/// Appends the event that waits.
fn push_pending(line: &mut ProcLine, pending: Option<Event>)
    requires { array_string_len line.old + 8 ≤ 512 }
    ensures bytes { line.new.bytes ≡ line.old.bytes ++ spaced (pending_fields pending) }
    ensures len { array_string_len line.new ≤ array_string_len line.old + 8 }
{
    match pending {
        None => push_word(line, "none"),
        Some(event) => {
            push_hex2(line, event.vector);
            push_code(line, event.code);
        }
    }
}

/// The line of a processor with its line feed. It takes no memory.
#[tactic(auto, unfolding(crate::specs::Report::proc_text))]
pub fn proc_line(cpu: u8, end: &ProcEnd<Proc>) -> ArrayString<512>
    ensures text { result.bytes ≡ proc_text cpu end.now }
    ensures short { array_string_len result ≤ 512 }
{
    let p = &end.after;
    let mut line = ArrayString::new();
    line.push_str("p");
    push_decimal(&mut line, u64::from(cpu));
    push_word(&mut line, mode_word(p.mode));
    push_word(&mut line, "steps");
    push_decimal(&mut line, u64::from(end.steps));
    push_registers(&mut line, p);
    push_selectors(&mut line, p);
    push_register(&mut line, "cr0", p.cr0);
    push_word(&mut line, "pending");
    push_pending(&mut line, p.pending);
    line.push_str("\n");
    line
}
