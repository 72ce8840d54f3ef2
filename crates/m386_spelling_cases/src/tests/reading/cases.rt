//! Bytes and what they read as: one spelling of each row of the opcode table as an assembler makes it, further forms and
//! prefixes, and refusals. A line has the bytes, and behind `=` the operation: its name, width and operands, and `lock` or
//! the repetition where it has one. Behind `@` a line has the place at which the bytes are refused, and behind `&` how
//! many more are surely wanted. All numbers but those of registers, widths, places and counts are hexadecimal.

/// One spelling of each row.
pub const ROWS: &str = "\
00 4d 12 = Add W8 [r5+12] r1
01 4d 12 = Add W32 [r5+12] r1
02 4d 12 = Add W8 r1 [r5+12]
03 4d 12 = Add W32 r1 [r5+12]
04 12 = Add W8 r0 i12
05 78 56 34 12 = Add W32 r0 i12345678
06 = Push W32 s0
07 = Pop W32 s0
08 4d 12 = Or W8 [r5+12] r1
09 4d 12 = Or W32 [r5+12] r1
0a 4d 12 = Or W8 r1 [r5+12]
0b 4d 12 = Or W32 r1 [r5+12]
0c 12 = Or W8 r0 i12
0d 78 56 34 12 = Or W32 r0 i12345678
0e = Push W32 s1
10 4d 12 = Adc W8 [r5+12] r1
11 4d 12 = Adc W32 [r5+12] r1
12 4d 12 = Adc W8 r1 [r5+12]
13 4d 12 = Adc W32 r1 [r5+12]
14 12 = Adc W8 r0 i12
15 78 56 34 12 = Adc W32 r0 i12345678
16 = Push W32 s2
17 = Pop W32 s2
18 4d 12 = Sbb W8 [r5+12] r1
19 4d 12 = Sbb W32 [r5+12] r1
1a 4d 12 = Sbb W8 r1 [r5+12]
1b 4d 12 = Sbb W32 r1 [r5+12]
1c 12 = Sbb W8 r0 i12
1d 78 56 34 12 = Sbb W32 r0 i12345678
1e = Push W32 s3
1f = Pop W32 s3
20 4d 12 = And W8 [r5+12] r1
21 4d 12 = And W32 [r5+12] r1
22 4d 12 = And W8 r1 [r5+12]
23 4d 12 = And W32 r1 [r5+12]
24 12 = And W8 r0 i12
25 78 56 34 12 = And W32 r0 i12345678
28 4d 12 = Sub W8 [r5+12] r1
29 4d 12 = Sub W32 [r5+12] r1
2a 4d 12 = Sub W8 r1 [r5+12]
2b 4d 12 = Sub W32 r1 [r5+12]
2c 12 = Sub W8 r0 i12
2d 78 56 34 12 = Sub W32 r0 i12345678
30 4d 12 = Xor W8 [r5+12] r1
31 4d 12 = Xor W32 [r5+12] r1
32 4d 12 = Xor W8 r1 [r5+12]
33 4d 12 = Xor W32 r1 [r5+12]
34 12 = Xor W8 r0 i12
35 78 56 34 12 = Xor W32 r0 i12345678
38 4d 12 = Cmp W8 [r5+12] r1
39 4d 12 = Cmp W32 [r5+12] r1
3a 4d 12 = Cmp W8 r1 [r5+12]
3b 4d 12 = Cmp W32 r1 [r5+12]
3c 12 = Cmp W8 r0 i12
3d 78 56 34 12 = Cmp W32 r0 i12345678
47 = Inc W32 r7
4f = Dec W32 r7
57 = Push W32 r7
5f = Pop W32 r7
60 = Pusha W32
61 = Popa W32
62 4d 12 = Bound W32 r1 [r5+12]
63 4d 12 = Arpl W16 [r5+12] r1
68 78 56 34 12 = Push W32 i12345678
69 4d 12 78 56 34 12 = Imul W32 r1 [r5+12] i12345678
6a fe = Push W32 ifffffffe
6b 4d 12 fe = Imul W32 r1 [r5+12] ifffffffe
70 f8 = Jo W32 jfffffff8
71 f8 = Jno W32 jfffffff8
72 f8 = Jb W32 jfffffff8
73 f8 = Jae W32 jfffffff8
74 f8 = Je W32 jfffffff8
75 f8 = Jne W32 jfffffff8
76 f8 = Jbe W32 jfffffff8
77 f8 = Ja W32 jfffffff8
78 f8 = Js W32 jfffffff8
79 f8 = Jns W32 jfffffff8
7a f8 = Jp W32 jfffffff8
7b f8 = Jnp W32 jfffffff8
7c f8 = Jl W32 jfffffff8
7d f8 = Jge W32 jfffffff8
7e f8 = Jle W32 jfffffff8
7f f8 = Jg W32 jfffffff8
80 45 12 12 = Add W8 [r5+12] i12
80 4d 12 12 = Or W8 [r5+12] i12
80 55 12 12 = Adc W8 [r5+12] i12
80 5d 12 12 = Sbb W8 [r5+12] i12
80 65 12 12 = And W8 [r5+12] i12
80 6d 12 12 = Sub W8 [r5+12] i12
80 75 12 12 = Xor W8 [r5+12] i12
80 7d 12 12 = Cmp W8 [r5+12] i12
81 45 12 78 56 34 12 = Add W32 [r5+12] i12345678
81 4d 12 78 56 34 12 = Or W32 [r5+12] i12345678
81 55 12 78 56 34 12 = Adc W32 [r5+12] i12345678
81 5d 12 78 56 34 12 = Sbb W32 [r5+12] i12345678
81 65 12 78 56 34 12 = And W32 [r5+12] i12345678
81 6d 12 78 56 34 12 = Sub W32 [r5+12] i12345678
81 75 12 78 56 34 12 = Xor W32 [r5+12] i12345678
81 7d 12 78 56 34 12 = Cmp W32 [r5+12] i12345678
83 45 12 fe = Add W32 [r5+12] ifffffffe
83 4d 12 fe = Or W32 [r5+12] ifffffffe
83 55 12 fe = Adc W32 [r5+12] ifffffffe
83 5d 12 fe = Sbb W32 [r5+12] ifffffffe
83 65 12 fe = And W32 [r5+12] ifffffffe
83 6d 12 fe = Sub W32 [r5+12] ifffffffe
83 75 12 fe = Xor W32 [r5+12] ifffffffe
83 7d 12 fe = Cmp W32 [r5+12] ifffffffe
84 4d 12 = Test W8 [r5+12] r1
85 4d 12 = Test W32 [r5+12] r1
86 4d 12 = Xchg W8 [r5+12] r1
87 4d 12 = Xchg W32 [r5+12] r1
88 4d 12 = Mov W8 [r5+12] r1
89 4d 12 = Mov W32 [r5+12] r1
8a 4d 12 = Mov W8 r1 [r5+12]
8b 4d 12 = Mov W32 r1 [r5+12]
8c 5d 12 = Mov W16 [r5+12] s3
8d 4d 12 = Lea W32 r1 [r5+12]
8e 45 12 = Mov W16 s0 [r5+12]
8e 5d 12 = Mov W16 s3 [r5+12]
8f 45 12 = Pop W32 [r5+12]
90 = Nop W32
97 = Xchg W32 r0 r7
98 = Cwde W32
99 = Cdq W32
9a 78 56 34 12 bc 9a = Callf W32 f9abc:12345678
9b = Wait W32
9c = Pushf W32
9d = Popf W32
9e = Sahf W32
9f = Lahf W32
a0 78 56 34 12 = Mov W8 r0 [+12345678]
a1 78 56 34 12 = Mov W32 r0 [+12345678]
a2 78 56 34 12 = Mov W8 [+12345678] r0
a3 78 56 34 12 = Mov W32 [+12345678] r0
a4 = Movs W8 [r6+0]
a5 = Movs W32 [r6+0]
a6 = Cmps W8 [r6+0]
a7 = Cmps W32 [r6+0]
a8 12 = Test W8 r0 i12
a9 78 56 34 12 = Test W32 r0 i12345678
aa = Stos W8
ab = Stos W32
ac = Lods W8 [r6+0]
ad = Lods W32 [r6+0]
ae = Scas W8
af = Scas W32
b7 12 = Mov W8 r7 i12
bf 78 56 34 12 = Mov W32 r7 i12345678
c0 45 12 05 = Rol W8 [r5+12] i5
c0 4d 12 05 = Ror W8 [r5+12] i5
c0 55 12 05 = Rcl W8 [r5+12] i5
c0 5d 12 05 = Rcr W8 [r5+12] i5
c0 65 12 05 = Shl W8 [r5+12] i5
c0 6d 12 05 = Shr W8 [r5+12] i5
c0 7d 12 05 = Sar W8 [r5+12] i5
c1 45 12 05 = Rol W32 [r5+12] i5
c1 4d 12 05 = Ror W32 [r5+12] i5
c1 55 12 05 = Rcl W32 [r5+12] i5
c1 5d 12 05 = Rcr W32 [r5+12] i5
c1 65 12 05 = Shl W32 [r5+12] i5
c1 6d 12 05 = Shr W32 [r5+12] i5
c1 7d 12 05 = Sar W32 [r5+12] i5
c2 34 12 = Ret W32 i1234
c3 = Ret W32
c4 4d 12 = Les W32 r1 [r5+12]
c5 4d 12 = Lds W32 r1 [r5+12]
c6 45 12 12 = Mov W8 [r5+12] i12
c7 45 12 78 56 34 12 = Mov W32 [r5+12] i12345678
c9 = Leave W32
ca 34 12 = Retf W32 i1234
cb = Retf W32
cc = Int3 W32
cd 05 = Int W32 i5
ce = Into W32
cf = Iret W32
d0 45 12 = Rol W8 [r5+12] i1
d0 4d 12 = Ror W8 [r5+12] i1
d0 55 12 = Rcl W8 [r5+12] i1
d0 5d 12 = Rcr W8 [r5+12] i1
d0 65 12 = Shl W8 [r5+12] i1
d0 6d 12 = Shr W8 [r5+12] i1
d0 7d 12 = Sar W8 [r5+12] i1
d1 45 12 = Rol W32 [r5+12] i1
d1 4d 12 = Ror W32 [r5+12] i1
d1 55 12 = Rcl W32 [r5+12] i1
d1 5d 12 = Rcr W32 [r5+12] i1
d1 65 12 = Shl W32 [r5+12] i1
d1 6d 12 = Shr W32 [r5+12] i1
d1 7d 12 = Sar W32 [r5+12] i1
d2 45 12 = Rol W8 [r5+12] r1
d2 4d 12 = Ror W8 [r5+12] r1
d2 55 12 = Rcl W8 [r5+12] r1
d2 5d 12 = Rcr W8 [r5+12] r1
d2 65 12 = Shl W8 [r5+12] r1
d2 6d 12 = Shr W8 [r5+12] r1
d2 7d 12 = Sar W8 [r5+12] r1
d3 45 12 = Rol W32 [r5+12] r1
d3 4d 12 = Ror W32 [r5+12] r1
d3 55 12 = Rcl W32 [r5+12] r1
d3 5d 12 = Rcr W32 [r5+12] r1
d3 65 12 = Shl W32 [r5+12] r1
d3 6d 12 = Shr W32 [r5+12] r1
d3 7d 12 = Sar W32 [r5+12] r1
d7 = Xlat W8 [r3+0]
df = Esc W32
e0 f8 = Loopnz W32 jfffffff8
e1 f8 = Loopz W32 jfffffff8
e2 f8 = Loop W32 jfffffff8
e3 f8 = Jecxz W32 jfffffff8
e4 05 = In W8 r0 i5
e5 05 = In W32 r0 i5
e6 05 = Out W8 i5 r0
e7 05 = Out W32 i5 r0
e8 1e 01 00 00 = Call W32 j11e
e9 1e 01 00 00 = Jmp W32 j11e
ea 78 56 34 12 bc 9a = Jmpf W32 f9abc:12345678
eb f8 = Jmp W32 jfffffff8
ec = In W8 r0 r2
ed = In W32 r0 r2
ee = Out W8 r2 r0
ef = Out W32 r2 r0
f4 = Hlt W32
f5 = Cmc W32
f6 45 12 12 = Test W8 [r5+12] i12
f6 55 12 = Not W8 [r5+12]
f6 5d 12 = Neg W8 [r5+12]
f6 65 12 = Mul W8 [r5+12]
f6 6d 12 = Imul W8 [r5+12]
f6 75 12 = Div W8 [r5+12]
f6 7d 12 = Idiv W8 [r5+12]
f7 45 12 78 56 34 12 = Test W32 [r5+12] i12345678
f7 55 12 = Not W32 [r5+12]
f7 5d 12 = Neg W32 [r5+12]
f7 65 12 = Mul W32 [r5+12]
f7 6d 12 = Imul W32 [r5+12]
f7 75 12 = Div W32 [r5+12]
f7 7d 12 = Idiv W32 [r5+12]
f8 = Clc W32
f9 = Stc W32
fa = Cli W32
fb = Sti W32
fc = Cld W32
fd = Std W32
fe 45 12 = Inc W8 [r5+12]
fe 4d 12 = Dec W8 [r5+12]
ff 45 12 = Inc W32 [r5+12]
ff 4d 12 = Dec W32 [r5+12]
ff 55 12 = Call W32 [r5+12]
ff 5d 12 = Callf W32 [r5+12]
ff 65 12 = Jmp W32 [r5+12]
ff 6d 12 = Jmpf W32 [r5+12]
ff 75 12 = Push W32 [r5+12]
0f 00 45 12 = Sldt W16 [r5+12]
0f 00 4d 12 = Str W16 [r5+12]
0f 00 55 12 = Lldt W16 [r5+12]
0f 00 5d 12 = Ltr W16 [r5+12]
0f 00 65 12 = Verr W16 [r5+12]
0f 00 6d 12 = Verw W16 [r5+12]
0f 01 45 12 = Sgdt W32 [r5+12]
0f 01 4d 12 = Sidt W32 [r5+12]
0f 01 55 12 = Lgdt W32 [r5+12]
0f 01 5d 12 = Lidt W32 [r5+12]
0f 01 65 12 = Smsw W16 [r5+12]
0f 01 75 12 = Lmsw W16 [r5+12]
0f 02 4d 12 = Lar W32 r1 [r5+12]
0f 03 4d 12 = Lsl W32 r1 [r5+12]
0f 06 = Clts W32
0f 20 c3 = Mov W32 r3 cr0
0f 22 c3 = Mov W32 cr0 r3
0f 80 1d 01 00 00 = Jo W32 j11d
0f 81 1d 01 00 00 = Jno W32 j11d
0f 82 1d 01 00 00 = Jb W32 j11d
0f 83 1d 01 00 00 = Jae W32 j11d
0f 84 1d 01 00 00 = Je W32 j11d
0f 85 1d 01 00 00 = Jne W32 j11d
0f 86 1d 01 00 00 = Jbe W32 j11d
0f 87 1d 01 00 00 = Ja W32 j11d
0f 88 1d 01 00 00 = Js W32 j11d
0f 89 1d 01 00 00 = Jns W32 j11d
0f 8a 1d 01 00 00 = Jp W32 j11d
0f 8b 1d 01 00 00 = Jnp W32 j11d
0f 8c 1d 01 00 00 = Jl W32 j11d
0f 8d 1d 01 00 00 = Jge W32 j11d
0f 8e 1d 01 00 00 = Jle W32 j11d
0f 8f 1d 01 00 00 = Jg W32 j11d
0f 90 45 12 = Seto W8 [r5+12]
0f 91 45 12 = Setno W8 [r5+12]
0f 92 45 12 = Setb W8 [r5+12]
0f 93 45 12 = Setae W8 [r5+12]
0f 94 45 12 = Sete W8 [r5+12]
0f 95 45 12 = Setne W8 [r5+12]
0f 96 45 12 = Setbe W8 [r5+12]
0f 97 45 12 = Seta W8 [r5+12]
0f 98 45 12 = Sets W8 [r5+12]
0f 99 45 12 = Setns W8 [r5+12]
0f 9a 45 12 = Setp W8 [r5+12]
0f 9b 45 12 = Setnp W8 [r5+12]
0f 9c 45 12 = Setl W8 [r5+12]
0f 9d 45 12 = Setge W8 [r5+12]
0f 9e 45 12 = Setle W8 [r5+12]
0f 9f 45 12 = Setg W8 [r5+12]
0f a0 = Push W32 s4
0f a1 = Pop W32 s4
0f a3 4d 12 = Bt W32 [r5+12] r1
0f a4 4d 12 05 = Shld W32 [r5+12] r1 i5
0f a5 4d 12 = Shld W32 [r5+12] r1 r1
0f a8 = Push W32 s5
0f a9 = Pop W32 s5
0f ab 4d 12 = Bts W32 [r5+12] r1
0f ac 4d 12 05 = Shrd W32 [r5+12] r1 i5
0f ad 4d 12 = Shrd W32 [r5+12] r1 r1
0f af 4d 12 = Imul W32 r1 [r5+12]
0f b2 4d 12 = Lss W32 r1 [r5+12]
0f b3 4d 12 = Btr W32 [r5+12] r1
0f b4 4d 12 = Lfs W32 r1 [r5+12]
0f b5 4d 12 = Lgs W32 r1 [r5+12]
0f b6 4d 12 = Movzx8 W32 r1 [r5+12]
0f b7 4d 12 = Movzx16 W32 r1 [r5+12]
0f ba 65 12 05 = Bt W32 [r5+12] i5
0f ba 6d 12 05 = Bts W32 [r5+12] i5
0f ba 75 12 05 = Btr W32 [r5+12] i5
0f ba 7d 12 05 = Btc W32 [r5+12] i5
0f bb 4d 12 = Btc W32 [r5+12] r1
0f bc 4d 12 = Bsf W32 r1 [r5+12]
0f bd 4d 12 = Bsr W32 r1 [r5+12]
0f be 4d 12 = Movsx8 W32 r1 [r5+12]
0f bf 4d 12 = Movsx16 W32 r1 [r5+12]
";

/// Operands of 16 bits, each form of a memory operand, and prefixes.
pub const FORMS: &str = "\
66 05 34 12 = Add W16 r0 i1234
66 68 34 12 = Push W16 i1234
66 69 4d 12 34 12 = Imul W16 r1 [r5+12] i1234
66 6a fe = Push W16 ifffe
66 6b 4d 12 fe = Imul W16 r1 [r5+12] ifffe
66 70 f7 = Jo W16 jfffffff7
66 81 45 12 34 12 = Add W16 [r5+12] i1234
66 83 45 12 fe = Add W16 [r5+12] ifffe
66 9a 34 12 bc 9a = Callf W16 f9abc:1234
66 a9 34 12 = Test W16 r0 i1234
66 bf 34 12 = Mov W16 r7 i1234
66 c7 45 12 34 12 = Mov W16 [r5+12] i1234
66 e2 f7 = Loop W16 jfffffff7
66 e8 1f 01 = Call W16 j11f
66 e9 1f 01 = Jmp W16 j11f
66 eb f7 = Jmp W16 jfffffff7
66 f7 45 12 34 12 = Test W16 [r5+12] i1234
66 0f 80 1e 01 = Jo W16 j11e
8b 08 = Mov W32 r1 [r0+0]
8b 0c 24 = Mov W32 r1 [r4+0]
8b 4d 00 = Mov W32 r1 [r5+0]
8b 0d 78 56 34 12 = Mov W32 r1 [+12345678]
8b 0c 90 = Mov W32 r1 [r0+r2*4+0]
8b 4c 55 00 = Mov W32 r1 [r5+r2*2+0]
8b 8c 55 88 a9 cb ed = Mov W32 r1 [r5+r2*2+edcba988]
8b 0c d5 78 56 34 12 = Mov W32 r1 [+r2*8+12345678]
8b 0c 15 78 56 34 12 = Mov W32 r1 [+r2*1+12345678]
8b 4c 04 fe = Mov W32 r1 [r4+r0*1+fffffffe]
8b 0c e4 = Mov W32 r1 [r4+0]
8b 8e 78 56 34 12 = Mov W32 r1 [r6+12345678]
8b 4f 80 = Mov W32 r1 [r7+ffffff80]
8b 4f 7f = Mov W32 r1 [r7+7f]
26 8b 0b = Mov W32 r1 [s0:r3+0]
65 8b 0d 10 00 00 00 = Mov W32 r1 [s5:+10]
64 a3 10 00 00 00 = Mov W32 [s4:+10] r0
88 fc = Mov W8 r4 r7
2e ac = Lods W8 [s1:r6+0]
3e a4 = Movs W8 [s3:r6+0]
26 2e d7 = Xlat W8 [s1:r3+0]
66 90 = Nop W32
f3 90 = Nop W32
66 66 83 c0 05 = Add W16 r0 i5
f0 ff 00 = Inc W32 [r0+0] lock
f0 0f a3 08 = Bt W32 [r0+0] r1 lock
f0 86 08 = Xchg W8 [r0+0] r1 lock
66 f0 26 f7 18 = Neg W16 [s0:r0+0] lock
f3 a5 = Movs W32 [r6+0] Equal
f2 ae = Scas W8 NotEqual
f3 66 a7 = Cmps W16 [r6+0] Equal
f3 f2 aa = Stos W8 NotEqual
f2 f3 ad = Lods W32 [r6+0] Equal
f3 40 = Inc W32 r0
";

/// Bytes that begin no spelling.
pub const REFUSALS: &str = "\
27 @ 0
2f @ 0
37 @ 0
3f @ 0
67 @ 0
6c @ 0
6d @ 0
6e @ 0
6f @ 0
82 @ 0
c8 @ 0
d4 @ 0
d5 @ 0
d6 @ 0
f1 @ 0
0f 04 @ 1
0f 05 @ 1
0f 0b @ 1
0f 21 @ 1
0f 24 @ 1
0f a2 @ 1
0f b0 @ 1
0f c8 @ 1
0f ff @ 1
26 2e 67 @ 2
66 f3 d6 @ 2
8c f0 @ 1
8c 78 @ 1
8e c8 @ 1
8e 08 @ 1
8e f0 @ 1
8e f8 @ 1
8f c8 @ 1
c6 c8 @ 1
c7 48 @ 1
c0 f0 @ 1
c1 70 @ 1
d0 f0 @ 1
d1 30 @ 1
d2 f0 @ 1
d3 f0 @ 1
f6 c8 @ 1
f7 08 @ 1
fe d0 @ 1
ff f8 @ 1
ff d8 @ 1
ff e8 @ 1
62 c0 @ 1
8d c0 @ 1
c4 c0 @ 1
c5 c0 @ 1
0f 00 30 @ 2
0f 01 c0 @ 2
0f 01 e8 @ 2
0f 01 38 @ 2
0f 20 c8 @ 2
0f 20 d0 @ 2
0f 20 d8 @ 2
0f 20 00 @ 2
0f 22 d8 @ 2
0f 22 05 @ 2
0f b2 c0 @ 2
0f b4 c0 @ 2
0f ba 00 @ 2
f0 89 @ 1
f0 02 @ 1
f0 38 @ 1
f0 84 @ 1
f0 90 @ 1
f0 00 c0 @ 2
f0 80 38 @ 2
f0 80 c0 @ 2
f0 f6 00 @ 2
f0 f7 d8 @ 2
f0 ff 10 @ 2
f0 0f a4 @ 2
f0 0f a3 c0 @ 3
f0 0f 20 @ 2
f0 0f 05 @ 2
f0 f0 c3 @ 2
66 f0 8b @ 2
f0 66 c6 @ 2
";

/// Fronts of spellings.
pub const WANTING: &str = "\
& 1
66 & 1
f0 & 1
0f & 1
0f b6 & 1
8b & 1
8b 04 & 1
8b 44 & 1
8b 45 & 1
8b 05 & 4
8b 85 00 & 3
8b 04 25 & 4
8b 44 24 & 1
8b 84 24 00 00 & 2
80 45 & 2
83 05 00 & 4
c7 45 & 5
c7 05 & 8
c7 05 00 00 00 00 & 4
66 c7 05 & 6
66 81 c0 & 2
81 c0 00 & 3
6a & 1
66 68 & 2
b8 & 4
66 b8 & 2
a1 00 & 3
66 a1 & 4
74 & 1
0f 84 & 4
66 0f 84 & 2
c2 & 2
9a & 6
66 9a & 4
0f a4 05 & 5";
