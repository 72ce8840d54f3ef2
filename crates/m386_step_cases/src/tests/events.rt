//! Steps that make a delivery, or return from a handler, with each cycle. The descriptor 0008 is that of the code, at 1000h, so its first
//! byte is the opcode of the step; the gate of vector 3 stands at 1008h.

/// INT3 with TF set and clear.
pub(crate) const SOFTWARE: &str = "\
start esp=1018 flags=4702 gdtr=ff8:f idtr=ff0:1f
INT3 with TF set
 bytes cc ff 00 00 00 9b cf 00 44 00 08 00 00 8e 00 00
 r fetch 0 1000 f ffcc
 r idt 0 1008 f 80044
 r+ idt 0 100c f 8e00
 r gdt 0 1000 f ffcc
 r+ gdt 0 1004 f cf9b00
 w push 0 1014 f 4702
 w push 0 1010 f 8
 w push 0 100c f 1001
 after eip=44 esp=100c flags=402 cs=8:0:fffcc:9b:c
INT3 through a trap gate
 bytes cc ff 00 00 00 9b cf 00 44 00 08 00 00 8f 00 00
 r fetch 0 1000 f ffcc
 r idt 0 1008 f 80044
 r+ idt 0 100c f 8f00
 r gdt 0 1000 f ffcc
 r+ gdt 0 1004 f cf9b00
 w push 0 1014 f 4702
 w push 0 1010 f 8
 w push 0 100c f 1001
 after eip=44 esp=100c flags=602 cs=8:0:fffcc:9b:c
";

/// INT n whose gate is refused.
pub(crate) const REFUSED: &str = "\
start esp=1018 gdtr=ff8:f idtr=ff0:1e
INT3 through a task gate, where TR isn't usable: #GP(0) behind the gate
 before flags=102 idtr=ff0:1f
 bytes cc ff 00 00 00 9b cf 00 44 00 08 00 00 85 00 00
 r fetch 0 1000 f ffcc
 r idt 0 1008 f 80044
 r+ idt 0 100c f 8500
 after pending=d:0
INT3 past the limit of the IDT
 bytes cc ff 00 00 00 9b cf 00 44 00 08 00 00 85 00 00
 r fetch 0 1000 f ffcc
 after pending=d:1a
";

/// INTO with OF set and clear.
pub(crate) const OVERFLOWS: &str = "\
start esp=1018 flags=102 gdtr=ff8:f idtr=ff0:1f
OF clear: an instruction as any other, with its trap
 bytes ce ff 00 00 00 9b cf 00 44 00 08 00 00 8e 00 00
 r fetch 0 1000 f ffce
 after eip=1001 pending=1
OF set: vector 4, past the limit of the IDT
 before flags=902
 bytes ce ff 00 00 00 9b cf 00 44 00 08 00 00 8e 00 00
 r fetch 0 1000 f ffce
 after pending=d:22
";

/// IRET with TF and NT set and clear.
pub(crate) const IRETS: &str = "\
start esp=1008 gdtr=ff8:f idtr=ff0:1f
IRET
 bytes cf ff 00 00 00 9b cf 00 44 00 08 00 08 00 77 77
 r fetch 0 1000 f ffcf
 r pop 0 1008 f 80044
 r pop 0 100c f 77770008
 r flags 0 1010 f 44332211
 r gdt 0 1000 f ffcf
 r+ gdt 0 1004 f cf9b00
 after eip=80044 esp=1014 flags=2213 cs=8:0:fffcf:9b:c
IRET with TF set before it
 before flags=102
 bytes cf ff 00 00 00 9b cf 00 44 00 08 00 08 00 77 77
 r fetch 0 1000 f ffcf
 r pop 0 1008 f 80044
 r pop 0 100c f 77770008
 r flags 0 1010 f 44332211
 r gdt 0 1000 f ffcf
 r+ gdt 0 1004 f cf9b00
 after eip=80044 esp=1014 flags=2213 cs=8:0:fffcf:9b:c pending=1
IRET with NT set, before its pops
 before flags=4102
 bytes cf ff 00 00 00 9b cf 00 44 00 08 00 08 00 77 77
 r fetch 0 1000 f ffcf
 after pending=d:0
";

/// Events that are pending or requested.
pub(crate) const EVENTS: &str = "\
start esp=1018 flags=302 gdtr=ff8:f idtr=ff0:1f
a pending event with a code, which ends a halt
 before mode=halted pending=3:1234
 bytes f4 ff 00 00 00 9b cf 00 44 00 08 00 00 8e 00 00
 r idt 0 1008 f 80044
 r+ idt 0 100c f 8e00
 r gdt 0 1000 f fff4
 r+ gdt 0 1004 f cf9b00
 w push 0 1014 f 302
 w push 0 1010 f 8
 w push 0 100c f 1000
 w push 0 1008 f 1234
 after eip=44 esp=1008 flags=2 cs=8:0:ffff4:9b:c mode=running pending=none
a request that ends a halt
 before mode=halted request=3
 bytes f4 ff 00 00 00 9b cf 00 44 00 08 00 00 8e 00 00
 r idt 0 1008 f 80044
 r+ idt 0 100c f 8e00
 r gdt 0 1000 f fff4
 r+ gdt 0 1004 f cf9b00
 w push 0 1014 f 302
 w push 0 1010 f 8
 w push 0 100c f 1000
 after eip=44 esp=100c flags=2 cs=8:0:ffff4:9b:c mode=running request=none
a pending event comes before a request, and ends the shadow
 before mode=halted pending=3:1234 shadow=1 request=3
 bytes f4 ff 00 00 00 9b cf 00 44 00 08 00 00 8e 00 00
 r idt 0 1008 f 80044
 r+ idt 0 100c f 8e00
 r gdt 0 1000 f fff4
 r+ gdt 0 1004 f cf9b00
 w push 0 1014 f 302
 w push 0 1010 f 8
 w push 0 100c f 1000
 w push 0 1008 f 1234
 after eip=44 esp=1008 flags=2 cs=8:0:ffff4:9b:c mode=running pending=none shadow=0
a request with IF clear
 before flags=102 request=3
 bytes f4 ff 00 00 00 9b cf 00 44 00 08 00 00 8e 00 00
 r fetch 0 1000 f fff4
 after eip=1001 mode=halted pending=1
a request under a shadow
 before shadow=1 request=3
 bytes f4 ff 00 00 00 9b cf 00 44 00 08 00 00 8e 00 00
 r fetch 0 1000 f fff4
 after eip=1001 mode=halted pending=1 shadow=0
";

/// Deliveries that meet a fault.
pub(crate) const FAULTS: &str = "\
start esp=1018 flags=202 gdtr=ff8:f idtr=ff0:1f
a gate that isn't present
 before mode=halted request=3
 bytes f4 ff 00 00 00 9b cf 00 44 00 08 00 00 0f 00 00
 r idt 0 1008 f 80044
 r+ idt 0 100c f f00
 after mode=running pending=b:1b request=none
a division error past the limit of the GDT: a double fault
 before pending=0
 bytes f4 ff 00 00 00 9b cf 00 44 00 08 00 00 0f 00 00
 r idt 0 ff0 f 0
 r+ idt 0 ff4 f 0
 after pending=8:0
a double fault past the limit of the IDT: a shutdown
 before pending=8:0
 bytes f4 ff 00 00 00 9b cf 00 44 00 08 00 00 0f 00 00
 after mode=shutdown pending=none
";
