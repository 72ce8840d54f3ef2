//! LDS, LES, LFS, LGS and LSS.

/// A pointer of each register.
pub(crate) const POINTERS: &str = "\
start ldtr=20:1900:17:82:0 gdtr=1800:17
LDS EAX, [1010h]
 r fetch 0 1000 f 101005c5
 r fetch 0 1004 f 0
 r data 0 1010 f 44332211
 r data 0 1014 3 10
 r gdt 0 1810 f ffff
 r+ gdt 0 1814 f 409300
 after eip=1006 eax=44332211 ds=10:0:ffff:93:4
LES CX, [1010h]
 r fetch 0 1000 f 100dc466
 r fetch 0 1004 f 10
 r data 0 1010 3 2211
 r data 0 1010 c 140000
 r ldt 0 1910 f ffff
 r+ ldt 0 1914 f 409000
 w+ ldtacc 0 1914 2 9100
 after eip=1007 ecx=c0c12211 es=14:0:ffff:90:4
LSS ESP, [1010h], which sets no shadow
 r fetch 0 1000 f 1025b20f
 r fetch 0 1004 f 10
 r data 0 1010 f 44332211
 r data 0 1014 3 10
 r gdt 0 1810 f ffff
 r+ gdt 0 1814 f 409200
 w+ gdtacc 0 1814 2 9300
 after eip=1007 esp=44332211 ss=10:0:ffff:92:4
LGS EBX, [1010h], with a null selector
 r fetch 0 1000 f 101db50f
 r fetch 0 1004 f 10
 r data 0 1010 f 44332211
 r data 0 1014 3 2
 after eip=1007 ebx=44332211 gs=-2:0:0:0:0
LDS EAX, [FFFFFFFCh], whose selector stands at 0
 r fetch 0 1000 f fffc05c5
 r fetch 0 1004 f ffff
 r data 0 fffffffc f 44332211
 r data 0 0 3 3
 after eip=1006 eax=44332211 ds=-3:0:0:0:0
";

/// A pointer at an odd address.
pub(crate) const SPLIT: &str = "\
start ldtr=20:1900:17:82:0 gdtr=1803:17
LFS EDX, [1013h]
 r fetch 0 1000 f 1315b40f
 r fetch 0 1004 f 10
 r data 0 1010 8 44000000
 r data 1 1014 7 776655
 r data 0 1014 8 10000000
 r data 1 1018 1 0
 r gdt 0 1810 8 ff000000
 r+ gdt 1 1814 7 ff
 r+ gdt 0 1814 8 0
 r+ gdt 1 1818 7 4092
 w+ gdtacc 0 1818 1 93
 after eip=1007 edx=77665544 fs=10:0:ffff:92:4
";

/// Pointers that are refused.
pub(crate) const FAULTS: &str = "\
start ldtr=20:1900:17:82:0 gdtr=1800:17
LDS EAX, [1010h], not present
 r fetch 0 1000 f 101005c5
 r fetch 0 1004 f 0
 r data 0 1010 f 44332211
 r data 0 1014 3 10
 r gdt 0 1810 f ffff
 r+ gdt 0 1814 f 401200
 after pending=b:10
LSS ESP, [1010h], with a null selector
 r fetch 0 1000 f 1025b20f
 r fetch 0 1004 f 10
 r data 0 1010 f 44332211
 r data 0 1014 3 0
 after pending=d:0
LDS EAX, ES:[FFFCh], whose selector is past the limit
 before es=10:0:ffff:93:4
 r fetch 0 1000 f fc05c526
 r fetch 0 1004 f ff
 r data 0 fffc f 44332211
 after pending=d:0
LDS EAX, ES:[FFFCh], whose offset is past the limit
 before es=10:0:fffe:93:4
 r fetch 0 1000 f fc05c526
 r fetch 0 1004 f ff
 after pending=d:0
LDS EAX, EAX, which is no instruction
 r fetch 0 1000 f c0c5
 after pending=6
";
