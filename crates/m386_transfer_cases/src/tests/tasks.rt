//! Worked task switches within a step: the start, far JMP and CALL to a TSS and through a task gate, IRET with NT set, and LTR. Three
//! tasks, 18h, 20h and 28h, have their TSSs at 3000h, 3080h and 3100h.

use m386_worked::texts::all_made;

/// Each way into a switch, and what the step makes of where it ends.
const SWITCHES: &str = "\
start eip=4000 eax=0 ecx=0 edx=0 ebx=0 esp=5000 ebp=0 esi=0 edi=0 es=-0:0:0:0:0 fs=-0:0:0:0:0 gs=-0:0:0:0:0 cs=8:0:fffff:9b:c ss=10:0:fffff:93:c ds=10:0:fffff:93:c tr=18:3000:67:89:0 cr0=9 gdtr=1000:3f idtr=2000:107
the start of a task
 before start=18 eip=0 esp=0 cs=-0:0:0:0:0 ss=-0:0:0:0:0 ds=-0:0:0:0:0 tr=-0:0:0:0:0 cr0=1
 r tss 0 1018 f 30000067
 r+ tss 0 101c f 8900
 w+ claimstart 0 101c 2 8b00
 r load 8 3020 f 4000
 r load 9 3024 f 2
 r load a 3028 f 0
 r load b 302c f 0
 r load c 3030 f 0
 r load d 3034 f 0
 r load e 3038 f 5000
 r load f 303c f 0
 r load 10 3040 f 0
 r load 11 3044 f 0
 r load 12 3048 3 0
 r load 13 304c 3 8
 r load 14 3050 3 10
 r load 15 3054 3 10
 r load 16 3058 3 0
 r load 17 305c 3 0
 r load 18 3060 3 0
 r load 19 3064 3 0
 r gdt 0 1008 f ffff
 r+ gdt 0 100c f cf9a00
 w+ gdtacc 0 100c 2 9b00
 r gdt 0 1010 f ffff
 r+ gdt 0 1014 f cf9200
 w+ gdtacc 0 1014 2 9300
 r gdt 0 1010 f ffff
 r+ gdt 0 1014 f cf9300
 after start=none eip=4000 flags=2 esp=5000 cs=8:0:fffff:9a:c ss=10:0:fffff:92:c ds=10:0:fffff:93:c tr=18:3000:67:89:0 cr0=9
the start of a task whose TSS is too short: the processor shuts down
 before start=18 eip=0 esp=0 cs=-0:0:0:0:0 ss=-0:0:0:0:0 ds=-0:0:0:0:0 tr=-0:0:0:0:0 cr0=1
 r tss 0 1018 f 30000066
 r+ tss 0 101c f 8900
 after start=none mode=shutdown
the start of a task whose stack may not be used: the fault is pending in it
 before start=18 eip=0 esp=0 cs=-0:0:0:0:0 ss=-0:0:0:0:0 ds=-0:0:0:0:0 tr=-0:0:0:0:0 cr0=1
 r tss 0 1018 f 30000067
 r+ tss 0 101c f 8900
 w+ claimstart 0 101c 2 8b00
 r load 8 3020 f 4000
 r load 9 3024 f 2
 r load a 3028 f 0
 r load b 302c f 0
 r load c 3030 f 0
 r load d 3034 f 0
 r load e 3038 f 5000
 r load f 303c f 0
 r load 10 3040 f 0
 r load 11 3044 f 0
 r load 12 3048 3 0
 r load 13 304c 3 8
 r load 14 3050 3 30
 r load 15 3054 3 10
 r load 16 3058 3 0
 r load 17 305c 3 0
 r load 18 3060 3 0
 r load 19 3064 3 0
 r gdt 0 1008 f ffff
 r+ gdt 0 100c f cf9a00
 w+ gdtacc 0 100c 2 9b00
 r gdt 0 1030 f ffff
 r+ gdt 0 1034 f cff200
 after start=none eip=4000 flags=2 esp=5000 cs=8:0:fffff:9a:c ss=-30:0:0:0:0 ds=-10:0:0:0:0 tr=18:3000:67:89:0 cr0=9 pending=a:30
JMP to a TSS whose limit is below 103
 r fetch 0 4000 f ea
 r fetch 0 4004 f 2800
 r gdt 0 1028 f 31000066
 r+ gdt 0 102c f 8900
 r tss 0 1028 f 31000066
 r+ tss 0 102c f 8900
 after pending=a:28
JMP to a task that is busy elsewhere
 r fetch 0 4000 f ea
 r fetch 0 4004 f 2000
 r gdt 0 1020 f 30800067
 r+ gdt 0 1024 f 8b00
 r tss 0 1020 f 30800067
 r+ tss 0 1024 f 8b00
 after pending=d:20
a claimant that comes too late
 r fetch 0 4000 f ea
 r fetch 0 4004 f 2800
 r gdt 0 1028 f 31000067
 r+ gdt 0 102c f 8900
 r tss 0 1028 f 31000067
 r+ tss 0 102c f 8b00
 after pending=d:28
CALL to the task itself
 r fetch 0 4000 f 9a
 r fetch 0 4004 f 1800
 r gdt 0 1018 f 30000067
 r+ gdt 0 101c f 8b00
 r tss 0 1018 f 30000067
 r+ tss 0 101c f 8b00
 after pending=d:18
JMP to a TSS without a task: no further cycle
 before tr=-0:0:0:0:0
 r fetch 0 4000 f ea
 r fetch 0 4004 f 2800
 r gdt 0 1028 f 31000067
 r+ gdt 0 102c f 8900
 after pending=d:0
JMP at level 3 to a TSS of level 0
 before cs=3b:0:fffff:fb:c
 r fetch 0 4000 f ea
 r fetch 0 4004 f 2800
 r gdt 0 1028 f 31000067
 r+ gdt 0 102c f 8900
 r tss 0 1028 f 31000067
 r+ tss 0 102c f 8900
 after pending=d:28
CALL to a TSS of level 0 by a selector of level 3
 r fetch 0 4000 f 9a
 r fetch 0 4004 f 2b00
 r gdt 0 1028 f 31000067
 r+ gdt 0 102c f 8900
 r tss 0 1028 f 31000067
 r+ tss 0 102c f 8900
 after pending=d:28
JMP through a task gate to the task itself
 r fetch 0 4000 f ea
 r fetch 0 4004 f 2000
 r gdt 0 1020 f 180000
 r+ gdt 0 1024 f 8500
 r tss 0 1018 f 30000067
 r+ tss 0 101c f 8b00
 after pending=d:18
CALL through a task gate
 r fetch 0 4000 f 9a
 r fetch 0 4004 f 3000
 r gdt 0 1030 f 200000
 r+ gdt 0 1034 f 8500
 r tss 0 1020 f 30800067
 r+ tss 0 1024 f 8900
 w+ claimcall 0 1024 2 8b00
 w save 8 3020 f 4007
 w save 9 3024 f 2
 w save a 3028 f 0
 w save b 302c f 0
 w save c 3030 f 0
 w save d 3034 f 0
 w save e 3038 f 5000
 w save f 303c f 0
 w save 10 3040 f 0
 w save 11 3044 f 0
 w save 12 3048 3 0
 w save 13 304c 3 8
 w save 14 3050 3 10
 w save 15 3054 3 10
 w save 16 3058 3 0
 w save 17 305c 3 0
 w link 0 3080 3 18
 r load 8 30a0 f 4100
 r load 9 30a4 f 2
 r load a 30a8 f 0
 r load b 30ac f 0
 r load c 30b0 f 0
 r load d 30b4 f 0
 r load e 30b8 f 6000
 r load f 30bc f 0
 r load 10 30c0 f 0
 r load 11 30c4 f 0
 r load 12 30c8 3 0
 r load 13 30cc 3 8
 r load 14 30d0 3 10
 r load 15 30d4 3 10
 r load 16 30d8 3 0
 r load 17 30dc 3 0
 r load 18 30e0 3 0
 r load 19 30e4 3 0
 r gdt 0 1008 f ffff
 r+ gdt 0 100c f cf9b00
 r gdt 0 1010 f ffff
 r+ gdt 0 1014 f cf9300
 r gdt 0 1010 f ffff
 r+ gdt 0 1014 f cf9300
 after eip=4100 flags=4002 esp=6000 tr=20:3080:67:89:0
JMP through a task gate of the LDT
 before ldtr=38:1100:f:82:0
 r fetch 0 4000 f ea
 r fetch 0 4004 f c00
 r ldt 0 1108 f 200000
 r+ ldt 0 110c f 8500
 r tss 0 1020 f 30800067
 r+ tss 0 1024 f 8900
 w+ claimjmp 0 1024 2 8b00
 w save 8 3020 f 4007
 w save 9 3024 f 2
 w save a 3028 f 0
 w save b 302c f 0
 w save c 3030 f 0
 w save d 3034 f 0
 w save e 3038 f 5000
 w save f 303c f 0
 w save 10 3040 f 0
 w save 11 3044 f 0
 w save 12 3048 3 0
 w save 13 304c 3 8
 w save 14 3050 3 10
 w save 15 3054 3 10
 w save 16 3058 3 0
 w save 17 305c 3 0
 r reljmp 0 101c 2 8b00
 w+ reljmp 0 101c 2 8900
 r load 8 30a0 f 4100
 r load 9 30a4 f 2
 r load a 30a8 f 0
 r load b 30ac f 0
 r load c 30b0 f 0
 r load d 30b4 f 0
 r load e 30b8 f 6000
 r load f 30bc f 0
 r load 10 30c0 f 0
 r load 11 30c4 f 0
 r load 12 30c8 3 0
 r load 13 30cc 3 8
 r load 14 30d0 3 10
 r load 15 30d4 3 10
 r load 16 30d8 3 0
 r load 17 30dc 3 0
 r load 18 30e0 3 0
 r load 19 30e4 3 0
 r gdt 0 1008 f ffff
 r+ gdt 0 100c f cf9b00
 r gdt 0 1010 f ffff
 r+ gdt 0 1014 f cf9300
 r gdt 0 1010 f ffff
 r+ gdt 0 1014 f cf9300
 after ldtr=-0:0:0:0:0 eip=4100 flags=2 esp=6000 tr=20:3080:67:89:0
JMP to a 286 TSS, which is another type
 r fetch 0 4000 f ea
 r fetch 0 4004 f 2000
 r gdt 0 1020 f 30800067
 r+ gdt 0 1024 f 8100
 after pending=d:20
CALL to a task
 r fetch 0 4000 f 9a
 r fetch 0 4004 f 2000
 r gdt 0 1020 f 30800067
 r+ gdt 0 1024 f 8900
 r tss 0 1020 f 30800067
 r+ tss 0 1024 f 8900
 w+ claimcall 0 1024 2 8b00
 w save 8 3020 f 4007
 w save 9 3024 f 2
 w save a 3028 f 0
 w save b 302c f 0
 w save c 3030 f 0
 w save d 3034 f 0
 w save e 3038 f 5000
 w save f 303c f 0
 w save 10 3040 f 0
 w save 11 3044 f 0
 w save 12 3048 3 0
 w save 13 304c 3 8
 w save 14 3050 3 10
 w save 15 3054 3 10
 w save 16 3058 3 0
 w save 17 305c 3 0
 w link 0 3080 3 18
 r load 8 30a0 f 4100
 r load 9 30a4 f 2
 r load a 30a8 f 0
 r load b 30ac f 0
 r load c 30b0 f 0
 r load d 30b4 f 0
 r load e 30b8 f 6000
 r load f 30bc f 0
 r load 10 30c0 f 0
 r load 11 30c4 f 0
 r load 12 30c8 3 0
 r load 13 30cc 3 8
 r load 14 30d0 3 10
 r load 15 30d4 3 10
 r load 16 30d8 3 0
 r load 17 30dc 3 0
 r load 18 30e0 3 0
 r load 19 30e4 3 0
 r gdt 0 1008 f ffff
 r+ gdt 0 100c f cf9b00
 r gdt 0 1010 f ffff
 r+ gdt 0 1014 f cf9300
 r gdt 0 1010 f ffff
 r+ gdt 0 1014 f cf9300
 after eip=4100 flags=4002 esp=6000 tr=20:3080:67:89:0
IRET with NT set goes back
 before eip=4100 flags=4002 esp=6000 tr=20:3080:67:89:0
 r fetch 0 4100 f cf
 r back 0 3080 3 18
 r tss 0 1018 f 30000067
 r+ tss 0 101c f 8b00
 w save 8 30a0 f 4101
 w save 9 30a4 f 2
 w save a 30a8 f 0
 w save b 30ac f 0
 w save c 30b0 f 0
 w save d 30b4 f 0
 w save e 30b8 f 6000
 w save f 30bc f 0
 w save 10 30c0 f 0
 w save 11 30c4 f 0
 w save 12 30c8 3 0
 w save 13 30cc 3 8
 w save 14 30d0 3 10
 w save 15 30d4 3 10
 w save 16 30d8 3 0
 w save 17 30dc 3 0
 r relret 0 1024 2 8b00
 w+ relret 0 1024 2 8900
 r load 8 3020 f 4007
 r load 9 3024 f 2
 r load a 3028 f 0
 r load b 302c f 0
 r load c 3030 f 0
 r load d 3034 f 0
 r load e 3038 f 5000
 r load f 303c f 0
 r load 10 3040 f 0
 r load 11 3044 f 0
 r load 12 3048 3 0
 r load 13 304c 3 8
 r load 14 3050 3 10
 r load 15 3054 3 10
 r load 16 3058 3 0
 r load 17 305c 3 0
 r load 18 3060 3 0
 r load 19 3064 3 0
 r gdt 0 1008 f ffff
 r+ gdt 0 100c f cf9b00
 r gdt 0 1010 f ffff
 r+ gdt 0 1014 f cf9300
 r gdt 0 1010 f ffff
 r+ gdt 0 1014 f cf9300
 after eip=4007 flags=2 esp=5000 tr=18:3000:67:8b:0
IRET to a task that isn't busy
 before eip=4100 flags=4002 esp=6000 tr=20:3080:67:89:0
 r fetch 0 4100 f cf
 r back 0 3080 3 18
 r tss 0 1018 f 30000067
 r+ tss 0 101c f 8900
 after pending=a:18
JMP to a task whose stack may not be used: the fault is pending in it
 r fetch 0 4000 f ea
 r fetch 0 4004 f 2000
 r gdt 0 1020 f 30800067
 r+ gdt 0 1024 f 8900
 r tss 0 1020 f 30800067
 r+ tss 0 1024 f 8900
 w+ claimjmp 0 1024 2 8b00
 w save 8 3020 f 4007
 w save 9 3024 f 2
 w save a 3028 f 0
 w save b 302c f 0
 w save c 3030 f 0
 w save d 3034 f 0
 w save e 3038 f 5000
 w save f 303c f 0
 w save 10 3040 f 0
 w save 11 3044 f 0
 w save 12 3048 3 0
 w save 13 304c 3 8
 w save 14 3050 3 10
 w save 15 3054 3 10
 w save 16 3058 3 0
 w save 17 305c 3 0
 r reljmp 0 101c 2 8b00
 w+ reljmp 0 101c 2 8900
 r load 8 30a0 f 4100
 r load 9 30a4 f 2
 r load a 30a8 f 0
 r load b 30ac f 0
 r load c 30b0 f 0
 r load d 30b4 f 0
 r load e 30b8 f 6000
 r load f 30bc f 0
 r load 10 30c0 f 0
 r load 11 30c4 f 0
 r load 12 30c8 3 0
 r load 13 30cc 3 8
 r load 14 30d0 3 30
 r load 15 30d4 3 10
 r load 16 30d8 3 0
 r load 17 30dc 3 0
 r load 18 30e0 3 0
 r load 19 30e4 3 0
 r gdt 0 1008 f ffff
 r+ gdt 0 100c f cf9b00
 r gdt 0 1030 f ffff
 r+ gdt 0 1034 f cff200
 after eip=4100 flags=2 esp=6000 ss=-30:0:0:0:0 ds=-10:0:0:0:0 tr=20:3080:67:89:0 pending=a:30
with TF set a switch ends without a trap
 before flags=102
 r fetch 0 4000 f ea
 r fetch 0 4004 f 2000
 r gdt 0 1020 f 30800067
 r+ gdt 0 1024 f 8900
 r tss 0 1020 f 30800067
 r+ tss 0 1024 f 8900
 w+ claimjmp 0 1024 2 8b00
 w save 8 3020 f 4007
 w save 9 3024 f 102
 w save a 3028 f 0
 w save b 302c f 0
 w save c 3030 f 0
 w save d 3034 f 0
 w save e 3038 f 5000
 w save f 303c f 0
 w save 10 3040 f 0
 w save 11 3044 f 0
 w save 12 3048 3 0
 w save 13 304c 3 8
 w save 14 3050 3 10
 w save 15 3054 3 10
 w save 16 3058 3 0
 w save 17 305c 3 0
 r reljmp 0 101c 2 8b00
 w+ reljmp 0 101c 2 8900
 r load 8 30a0 f 4100
 r load 9 30a4 f 2
 r load a 30a8 f 0
 r load b 30ac f 0
 r load c 30b0 f 0
 r load d 30b4 f 0
 r load e 30b8 f 6000
 r load f 30bc f 0
 r load 10 30c0 f 0
 r load 11 30c4 f 0
 r load 12 30c8 3 0
 r load 13 30cc 3 8
 r load 14 30d0 3 10
 r load 15 30d4 3 10
 r load 16 30d8 3 0
 r load 17 30dc 3 0
 r load 18 30e0 3 0
 r load 19 30e4 3 0
 r gdt 0 1008 f ffff
 r+ gdt 0 100c f cf9b00
 r gdt 0 1010 f ffff
 r+ gdt 0 1014 f cf9300
 r gdt 0 1010 f ffff
 r+ gdt 0 1014 f cf9300
 after eip=4100 flags=2 esp=6000 tr=20:3080:67:89:0
nor does one that fails in the old task
 before flags=102
 r fetch 0 4000 f ea
 r fetch 0 4004 f 2800
 r gdt 0 1028 f 31000066
 r+ gdt 0 102c f 8900
 r tss 0 1028 f 31000066
 r+ tss 0 102c f 8900
 after pending=a:28
in a nested task IRET of a handler, whose image has NT set
 before eip=4200 flags=2 esp=5ff4 tr=20:3080:67:89:0
 r fetch 0 4200 f cf
 r pop 0 5ff4 f 4102
 r pop 0 5ff8 f 8
 r flags 0 5ffc f 4002
 r gdt 0 1008 f ffff
 r+ gdt 0 100c f cf9b00
 after eip=4102 flags=4002 esp=6000
LTR claims a task
 before eax=20 tr=-0:0:0:0:0
 r fetch 0 4000 f d8000f
 r gdt 0 1020 f 30800067
 r+ gdt 0 1024 f 8900
 w+ claimltr 0 1024 2 8b00
 after eip=4003 tr=20:3080:67:89:0
LTR of a task that is busy
 before eax=20 tr=-0:0:0:0:0
 r fetch 0 4000 f d8000f
 r gdt 0 1020 f 30800067
 r+ gdt 0 1024 f 8b00
 after pending=d:20
LTR at level 3, before its operand
 before eax=20 cs=3b:0:fffff:fb:c
 r fetch 0 4000 f d8000f
 after pending=d:0
";

#[test]
fn each_way_into_a_switch(rt: HostRuntime) {
    assert_eq!(rt; all_made(SWITCHES), Ok(24));
}
