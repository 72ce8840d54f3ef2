//! Where a step ends and the next one begins: traps by TF, which counts as it stands at a step's start, and events. The IDT is at
//! 2000h, the GDT at 3000h, the stack at 4000h. Flags are numbers: TF 100h, IF 200h, and bit 1, which is always 1.

/// Instructions that change TF or don't, with TF set and clear before them.
pub(crate) const TRACED: &str = "\
start esp=4000 flags=102 gdtr=3000:f idtr=2000:107
INT 32 with TF set, which is delivered and not traced
 r fetch 0 1000 f 20cd
 r idt 0 2100 f 81100
 r+ idt 0 2104 f 8e00
 r gdt 0 3008 f ffff
 r+ gdt 0 300c f cf9b00
 w push 0 3ffc f 102
 w push 0 3ff8 f 8
 w push 0 3ff4 f 1002
 after eip=1100 esp=3ff4 flags=2
INTO with TF set and OF clear, which is traced
 r fetch 0 1000 f ce
 after eip=1001 pending=1
IRET that clears TF, and is traced
 r fetch 0 1000 f cf
 r pop 0 4000 f 1100
 r pop 0 4004 f 8
 r flags 0 4008 f 2
 r gdt 0 3008 f ffff
 r+ gdt 0 300c f cf9b00
 after eip=1100 esp=400c flags=2 pending=1
IRET that sets TF, and isn't traced itself
 before flags=2
 r fetch 0 1000 f cf
 r pop 0 4000 f 1100
 r pop 0 4004 f 8
 r flags 0 4008 f 102
 r gdt 0 3008 f ffff
 r+ gdt 0 300c f cf9b00
 after eip=1100 esp=400c flags=102
STI with TF set
 r fetch 0 1000 f fb
 after eip=1001 flags=302 pending=1 shadow=1
HLT with TF set
 r fetch 0 1000 f f4
 after eip=1001 mode=halted pending=1
";

/// A pending event, a request, and both.
pub(crate) const DELIVERED: &str = "\
start esp=4000 flags=202 gdtr=3000:f idtr=2000:107
a request wakes a halted processor, through an interrupt gate
 before mode=halted request=20
 r idt 0 2100 f 81100
 r+ idt 0 2104 f 8e00
 r gdt 0 3008 f ffff
 r+ gdt 0 300c f cf9b00
 w push 0 3ffc f 202
 w push 0 3ff8 f 8
 w push 0 3ff4 f 1000
 after eip=1100 esp=3ff4 flags=2 mode=running request=none
a pending #GP and its code, through a trap gate, which leaves IF
 before pending=d:18
 r idt 0 2068 f 81100
 r+ idt 0 206c f 8f00
 r gdt 0 3008 f ffff
 r+ gdt 0 300c f cf9b00
 w push 0 3ffc f 202
 w push 0 3ff8 f 8
 w push 0 3ff4 f 1000
 w push 0 3ff0 f 18
 after eip=1100 esp=3ff0 pending=none
an interrupt of the vector 13 has no code
 before external=d
 r idt 0 2068 f 81100
 r+ idt 0 206c f 8f00
 r gdt 0 3008 f ffff
 r+ gdt 0 300c f cf9b00
 w push 0 3ffc f 202
 w push 0 3ff8 f 8
 w push 0 3ff4 f 1000
 after eip=1100 esp=3ff4 pending=none
a pending event needs no IF, and comes under a shadow
 before flags=2 pending=6 shadow=1 request=20
 r idt 0 2030 f 81100
 r+ idt 0 2034 f 8e00
 r gdt 0 3008 f ffff
 r+ gdt 0 300c f cf9b00
 w push 0 3ffc f 2
 w push 0 3ff8 f 8
 w push 0 3ff4 f 1000
 after eip=1100 esp=3ff4 pending=none shadow=0
";
