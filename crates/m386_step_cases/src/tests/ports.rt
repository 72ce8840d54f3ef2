//! Steps of IN and OUT, with the cycles on the I/O map and on the ports. The cycles of the map alone are those of `m386_iomap_cases`.

/// Where CPL is at most IOPL, in spellings of one and of two fetches.
pub(crate) const FREE: &str = "\
IN EAX, 78h, before a number of its own
 bytes e5 78 56 34 12
 r fetch 0 1000 f 345678e5
 pr data 0 78 f 0
 after eip=1002 eax=0
IN AX, 78h, over the end of a group
 before eip=1003
 bytes 00 00 00 66 e5 78
 r fetch 0 1000 f 66000000
 r fetch 0 1004 f 78e5
 pr data 0 78 3 0
 after eip=1006 eax=a0a10000
OUT 78h, EAX, with a prefix of a segment
 bytes 3e e7 78
 r fetch 0 1000 f 78e73e
 pw data 0 78 f a0a1a2a3
 after eip=1003
OUT 78h, AX
 bytes 66 e7 78
 r fetch 0 1000 f 78e766
 pw data 0 78 3 a2a3
 after eip=1003
IN EAX, DX, three ports behind FFFFh
 before edx=ffff
 bytes ed
 r fetch 0 1000 f ed
 pr data 0 fffc 8 0
 pr data 1 0 7 0
 after eip=1001 eax=0
";

/// At level 3 with IOPL 0, in a task whose segment is at 3000h and whose map is its last byte, at the limit 68h.
pub(crate) const BY_THE_MAP: &str = "\
start eip=4000 esp=5000 cs=3b:0:fffff:fb:c ss=33:0:fffff:f3:c ds=33:0:fffff:f3:c tr=18:3000:68:89:0 gdtr=1000:3f
OUT 7, AL, the last port of the map
 before eax=0
 r fetch 0 4000 f 7e6
 r map 1a 3064 c 680000
 r map 0 3068 1 0
 pw data 0 4 8 0
 after eip=4002
OUT 8, AL, the port behind it: no further byte is read
 r fetch 0 4000 f 8e6
 r map 1a 3064 c 680000
 after pending=d:0
OUT 7, AL, whose bit is set
 r fetch 0 4000 f 7e6
 r map 1a 3064 c 680000
 r map 0 3068 1 80
 after pending=d:0
IN AX, 7, over the end of the map
 r fetch 0 4000 f 7e566
 r map 1a 3064 c 680000
 r map 0 3068 1 7f
 after pending=d:0
IN AX, 7, over two bytes of the map
 before tr=18:3000:69:89:0
 r fetch 0 4000 f 7e566
 r map 1a 3064 c 680000
 r map 0 3068 1 7f
 r map 0 3068 2 fe00
 pr data 0 4 8 11000000
 pr data 1 8 1 22
 after eip=4003 eax=a0a12211
OUT DX, EAX, of FFFEh to 1, over the last and the first byte of the map
 before edx=fffe tr=18:3000:2067:89:0
 r fetch 0 4000 f ef
 r map 1a 3064 c 680000
 r map 0 3068 1 fc
 r map 0 5064 8 3f000000
 pw data 0 fffc c a2a30000
 pw data 2 0 3 a0a1
 after eip=4001
a limit without the whole base of a map
 before tr=18:3000:66:89:0
 r fetch 0 4000 f 7e6
 after pending=d:0
with TF set the trap is behind the ports
 before flags=102 eax=0
 r fetch 0 4000 f 7e6
 r map 1a 3064 c 680000
 r map 0 3068 1 0
 pw data 0 4 8 0
 after eip=4002 pending=1
";
