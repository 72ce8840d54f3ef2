//! The opcode table, one row a line. A line has the opcode or the range of opcodes, behind a slash the `/n` of the ModRM byte
//! where the row has one, the operation, its size, its operands, and `lock` where LOCK may stand before it.
ghost use Rattle.std.specs.Prelude.{◌≡◌, ℕ, true, Contains};
ghost use Rattle.m386_opmap.specs.Opcodes.{opcode_rows};
ghost use Rattle.m386_opmap.specs.Rows.{Covers, counts_from, rising};
ghost use Rattle.m386_opmap.specs.declared.row.Row.{Row};

use crate::name::Name;
use crate::row::{Operand, Row, Size};

/// The first key of a row.
macro_rules! first_key {
    ($opcode:literal) => {
        $opcode * 8
    };
    ($opcode:literal / $middle:literal) => {
        $opcode * 8 + $middle
    };
}

/// The last key of a row.
macro_rules! last_key {
    ($opcode:literal) => {
        $opcode * 8 + 7
    };
    ($opcode:literal ..= $last:literal) => {
        $last * 8 + 7
    };
    ($opcode:literal / $middle:literal) => {
        $opcode * 8 + $middle
    };
    ($opcode:literal / $middle:literal ..= $last:literal) => {
        $opcode * 8 + $last
    };
}

/// An operand of a row by its place, `Absent` behind the last.
macro_rules! operand {
    () => {
        Operand::Absent
    };
    ($operand:ident) => {
        Operand::$operand
    };
}

/// Whether a row has its mark.
macro_rules! has_lock {
    () => {
        false
    };
    (lock) => {
        true
    };
}

/// The rows of the table.
macro_rules! rows {
    ($(
        $opcode:literal $(..= $last:literal)? $(/ $middle:literal $(..= $end:literal)?)?
        $name:ident $size:ident ($($first:ident $($second:ident $($third:ident)?)?)?) $($mark:ident)?;
    )*) => {
        [$(Row {
            low: first_key!($opcode $(/ $middle)?),
            high: last_key!($opcode $(..= $last)? $(/ $middle $(..= $end)?)?),
            name: Name::$name,
            size: Size::$size,
            first: operand!($($first)?),
            second: operand!($($($second)?)?),
            third: operand!($($($($third)?)?)?),
            lock: has_lock!($($mark)?),
            newer: false,
        }),*]
    };
}

/// Counts, without a comma between them.
macro_rules! counts {
    ($($count:literal)*) => {
        [$($count),*]
    };
}

/// The opcodes of the machine (PRM appendix A), rising by their keys.
pub const OPCODE_ROWS: [Row; 327] = rows![
    0x00 Add Byte (E G) lock;
    0x01 Add Either (E G) lock;
    0x02 Add Byte (G E);
    0x03 Add Either (G E);
    0x04 Add Byte (Eax I);
    0x05 Add Either (Eax I);
    0x06 Push Either (Es);
    0x07 Pop Either (Es);
    0x08 Or Byte (E G) lock;
    0x09 Or Either (E G) lock;
    0x0a Or Byte (G E);
    0x0b Or Either (G E);
    0x0c Or Byte (Eax I);
    0x0d Or Either (Eax I);
    0x0e Push Either (Cs);
    0x10 Adc Byte (E G) lock;
    0x11 Adc Either (E G) lock;
    0x12 Adc Byte (G E);
    0x13 Adc Either (G E);
    0x14 Adc Byte (Eax I);
    0x15 Adc Either (Eax I);
    0x16 Push Either (Ss);
    0x17 Pop Either (Ss);
    0x18 Sbb Byte (E G) lock;
    0x19 Sbb Either (E G) lock;
    0x1a Sbb Byte (G E);
    0x1b Sbb Either (G E);
    0x1c Sbb Byte (Eax I);
    0x1d Sbb Either (Eax I);
    0x1e Push Either (Ds);
    0x1f Pop Either (Ds);
    0x20 And Byte (E G) lock;
    0x21 And Either (E G) lock;
    0x22 And Byte (G E);
    0x23 And Either (G E);
    0x24 And Byte (Eax I);
    0x25 And Either (Eax I);
    0x28 Sub Byte (E G) lock;
    0x29 Sub Either (E G) lock;
    0x2a Sub Byte (G E);
    0x2b Sub Either (G E);
    0x2c Sub Byte (Eax I);
    0x2d Sub Either (Eax I);
    0x30 Xor Byte (E G) lock;
    0x31 Xor Either (E G) lock;
    0x32 Xor Byte (G E);
    0x33 Xor Either (G E);
    0x34 Xor Byte (Eax I);
    0x35 Xor Either (Eax I);
    0x38 Cmp Byte (E G);
    0x39 Cmp Either (E G);
    0x3a Cmp Byte (G E);
    0x3b Cmp Either (G E);
    0x3c Cmp Byte (Eax I);
    0x3d Cmp Either (Eax I);
    0x40 ..= 0x47 Inc Either (Low);
    0x48 ..= 0x4f Dec Either (Low);
    0x50 ..= 0x57 Push Either (Low);
    0x58 ..= 0x5f Pop Either (Low);
    0x60 Pusha Either ();
    0x61 Popa Either ();
    0x62 Bound Either (G M);
    0x63 Arpl Word (E G);
    0x68 Push Either (I);
    0x69 Imul Either (G E I);
    0x6a Push Either (SignedByte);
    0x6b Imul Either (G E SignedByte);
    0x70 Jo Either (Jb);
    0x71 Jno Either (Jb);
    0x72 Jb Either (Jb);
    0x73 Jae Either (Jb);
    0x74 Je Either (Jb);
    0x75 Jne Either (Jb);
    0x76 Jbe Either (Jb);
    0x77 Ja Either (Jb);
    0x78 Js Either (Jb);
    0x79 Jns Either (Jb);
    0x7a Jp Either (Jb);
    0x7b Jnp Either (Jb);
    0x7c Jl Either (Jb);
    0x7d Jge Either (Jb);
    0x7e Jle Either (Jb);
    0x7f Jg Either (Jb);
    0x80 / 0 Add Byte (E I) lock;
    0x80 / 1 Or Byte (E I) lock;
    0x80 / 2 Adc Byte (E I) lock;
    0x80 / 3 Sbb Byte (E I) lock;
    0x80 / 4 And Byte (E I) lock;
    0x80 / 5 Sub Byte (E I) lock;
    0x80 / 6 Xor Byte (E I) lock;
    0x80 / 7 Cmp Byte (E I);
    0x81 / 0 Add Either (E I) lock;
    0x81 / 1 Or Either (E I) lock;
    0x81 / 2 Adc Either (E I) lock;
    0x81 / 3 Sbb Either (E I) lock;
    0x81 / 4 And Either (E I) lock;
    0x81 / 5 Sub Either (E I) lock;
    0x81 / 6 Xor Either (E I) lock;
    0x81 / 7 Cmp Either (E I);
    0x83 / 0 Add Either (E SignedByte) lock;
    0x83 / 1 Or Either (E SignedByte) lock;
    0x83 / 2 Adc Either (E SignedByte) lock;
    0x83 / 3 Sbb Either (E SignedByte) lock;
    0x83 / 4 And Either (E SignedByte) lock;
    0x83 / 5 Sub Either (E SignedByte) lock;
    0x83 / 6 Xor Either (E SignedByte) lock;
    0x83 / 7 Cmp Either (E SignedByte);
    0x84 Test Byte (E G);
    0x85 Test Either (E G);
    0x86 Xchg Byte (E G) lock;
    0x87 Xchg Either (E G) lock;
    0x88 Mov Byte (E G);
    0x89 Mov Either (E G);
    0x8a Mov Byte (G E);
    0x8b Mov Either (G E);
    0x8c / 0 ..= 5 Mov Word (E S);
    0x8d Lea Either (G M);
    0x8e / 0 Mov Word (S E);
    0x8e / 2 ..= 5 Mov Word (S E);
    0x8f / 0 Pop Either (E);
    0x90 Nop Double ();
    0x91 ..= 0x97 Xchg Either (Eax Low);
    0x98 Cwde Either ();
    0x99 Cdq Either ();
    0x9a Callf Either (A);
    0x9b Wait Double ();
    0x9c Pushf Either ();
    0x9d Popf Either ();
    0x9e Sahf Double ();
    0x9f Lahf Double ();
    0xa0 Mov Byte (Eax O);
    0xa1 Mov Either (Eax O);
    0xa2 Mov Byte (O Eax);
    0xa3 Mov Either (O Eax);
    0xa4 Movs Byte (X);
    0xa5 Movs Either (X);
    0xa6 Cmps Byte (X);
    0xa7 Cmps Either (X);
    0xa8 Test Byte (Eax I);
    0xa9 Test Either (Eax I);
    0xaa Stos Byte ();
    0xab Stos Either ();
    0xac Lods Byte (X);
    0xad Lods Either (X);
    0xae Scas Byte ();
    0xaf Scas Either ();
    0xb0 ..= 0xb7 Mov Byte (Low I);
    0xb8 ..= 0xbf Mov Either (Low I);
    0xc0 / 0 Rol Byte (E Ib);
    0xc0 / 1 Ror Byte (E Ib);
    0xc0 / 2 Rcl Byte (E Ib);
    0xc0 / 3 Rcr Byte (E Ib);
    0xc0 / 4 Shl Byte (E Ib);
    0xc0 / 5 Shr Byte (E Ib);
    0xc0 / 7 Sar Byte (E Ib);
    0xc1 / 0 Rol Either (E Ib);
    0xc1 / 1 Ror Either (E Ib);
    0xc1 / 2 Rcl Either (E Ib);
    0xc1 / 3 Rcr Either (E Ib);
    0xc1 / 4 Shl Either (E Ib);
    0xc1 / 5 Shr Either (E Ib);
    0xc1 / 7 Sar Either (E Ib);
    0xc2 Ret Either (Iw);
    0xc3 Ret Either ();
    0xc4 Les Either (G M);
    0xc5 Lds Either (G M);
    0xc6 / 0 Mov Byte (E I);
    0xc7 / 0 Mov Either (E I);
    0xc9 Leave Either ();
    0xca Retf Either (Iw);
    0xcb Retf Either ();
    0xcc Int3 Double ();
    0xcd Int Double (Ib);
    0xce Into Double ();
    0xcf Iret Either ();
    0xd0 / 0 Rol Byte (E One);
    0xd0 / 1 Ror Byte (E One);
    0xd0 / 2 Rcl Byte (E One);
    0xd0 / 3 Rcr Byte (E One);
    0xd0 / 4 Shl Byte (E One);
    0xd0 / 5 Shr Byte (E One);
    0xd0 / 7 Sar Byte (E One);
    0xd1 / 0 Rol Either (E One);
    0xd1 / 1 Ror Either (E One);
    0xd1 / 2 Rcl Either (E One);
    0xd1 / 3 Rcr Either (E One);
    0xd1 / 4 Shl Either (E One);
    0xd1 / 5 Shr Either (E One);
    0xd1 / 7 Sar Either (E One);
    0xd2 / 0 Rol Byte (E Cl);
    0xd2 / 1 Ror Byte (E Cl);
    0xd2 / 2 Rcl Byte (E Cl);
    0xd2 / 3 Rcr Byte (E Cl);
    0xd2 / 4 Shl Byte (E Cl);
    0xd2 / 5 Shr Byte (E Cl);
    0xd2 / 7 Sar Byte (E Cl);
    0xd3 / 0 Rol Either (E Cl);
    0xd3 / 1 Ror Either (E Cl);
    0xd3 / 2 Rcl Either (E Cl);
    0xd3 / 3 Rcr Either (E Cl);
    0xd3 / 4 Shl Either (E Cl);
    0xd3 / 5 Shr Either (E Cl);
    0xd3 / 7 Sar Either (E Cl);
    0xd7 Xlat Byte (Table);
    0xd8 ..= 0xdf Esc Double ();
    0xe0 Loopnz Either (Jb);
    0xe1 Loopz Either (Jb);
    0xe2 Loop Either (Jb);
    0xe3 Jecxz Either (Jb);
    0xe4 In Byte (Eax Ib);
    0xe5 In Either (Eax Ib);
    0xe6 Out Byte (Ib Eax);
    0xe7 Out Either (Ib Eax);
    0xe8 Call Either (J);
    0xe9 Jmp Either (J);
    0xea Jmpf Either (A);
    0xeb Jmp Either (Jb);
    0xec In Byte (Eax Dx);
    0xed In Either (Eax Dx);
    0xee Out Byte (Dx Eax);
    0xef Out Either (Dx Eax);
    0xf4 Hlt Double ();
    0xf5 Cmc Double ();
    0xf6 / 0 Test Byte (E I);
    0xf6 / 2 Not Byte (E) lock;
    0xf6 / 3 Neg Byte (E) lock;
    0xf6 / 4 Mul Byte (E);
    0xf6 / 5 Imul Byte (E);
    0xf6 / 6 Div Byte (E);
    0xf6 / 7 Idiv Byte (E);
    0xf7 / 0 Test Either (E I);
    0xf7 / 2 Not Either (E) lock;
    0xf7 / 3 Neg Either (E) lock;
    0xf7 / 4 Mul Either (E);
    0xf7 / 5 Imul Either (E);
    0xf7 / 6 Div Either (E);
    0xf7 / 7 Idiv Either (E);
    0xf8 Clc Double ();
    0xf9 Stc Double ();
    0xfa Cli Double ();
    0xfb Sti Double ();
    0xfc Cld Double ();
    0xfd Std Double ();
    0xfe / 0 Inc Byte (E) lock;
    0xfe / 1 Dec Byte (E) lock;
    0xff / 0 Inc Either (E) lock;
    0xff / 1 Dec Either (E) lock;
    0xff / 2 Call Either (E);
    0xff / 3 Callf Either (M);
    0xff / 4 Jmp Either (E);
    0xff / 5 Jmpf Either (M);
    0xff / 6 Push Either (E);
    0x0f00 / 0 Sldt Word (E);
    0x0f00 / 1 Str Word (E);
    0x0f00 / 2 Lldt Word (E);
    0x0f00 / 3 Ltr Word (E);
    0x0f00 / 4 Verr Word (E);
    0x0f00 / 5 Verw Word (E);
    0x0f01 / 0 Sgdt Either (M);
    0x0f01 / 1 Sidt Either (M);
    0x0f01 / 2 Lgdt Either (M);
    0x0f01 / 3 Lidt Either (M);
    0x0f01 / 4 Smsw Word (E);
    0x0f01 / 6 Lmsw Word (E);
    0x0f02 Lar Either (G E);
    0x0f03 Lsl Either (G E);
    0x0f06 Clts Double ();
    0x0f20 / 0 Mov Double (R Cr0);
    0x0f22 / 0 Mov Double (Cr0 R);
    0x0f80 Jo Either (J);
    0x0f81 Jno Either (J);
    0x0f82 Jb Either (J);
    0x0f83 Jae Either (J);
    0x0f84 Je Either (J);
    0x0f85 Jne Either (J);
    0x0f86 Jbe Either (J);
    0x0f87 Ja Either (J);
    0x0f88 Js Either (J);
    0x0f89 Jns Either (J);
    0x0f8a Jp Either (J);
    0x0f8b Jnp Either (J);
    0x0f8c Jl Either (J);
    0x0f8d Jge Either (J);
    0x0f8e Jle Either (J);
    0x0f8f Jg Either (J);
    0x0f90 Seto Byte (E);
    0x0f91 Setno Byte (E);
    0x0f92 Setb Byte (E);
    0x0f93 Setae Byte (E);
    0x0f94 Sete Byte (E);
    0x0f95 Setne Byte (E);
    0x0f96 Setbe Byte (E);
    0x0f97 Seta Byte (E);
    0x0f98 Sets Byte (E);
    0x0f99 Setns Byte (E);
    0x0f9a Setp Byte (E);
    0x0f9b Setnp Byte (E);
    0x0f9c Setl Byte (E);
    0x0f9d Setge Byte (E);
    0x0f9e Setle Byte (E);
    0x0f9f Setg Byte (E);
    0x0fa0 Push Either (Fs);
    0x0fa1 Pop Either (Fs);
    0x0fa3 Bt Either (E G) lock;
    0x0fa4 Shld Either (E G Ib);
    0x0fa5 Shld Either (E G Cl);
    0x0fa8 Push Either (Gs);
    0x0fa9 Pop Either (Gs);
    0x0fab Bts Either (E G) lock;
    0x0fac Shrd Either (E G Ib);
    0x0fad Shrd Either (E G Cl);
    0x0faf Imul Either (G E);
    0x0fb2 Lss Either (G M);
    0x0fb3 Btr Either (E G) lock;
    0x0fb4 Lfs Either (G M);
    0x0fb5 Lgs Either (G M);
    0x0fb6 Movzx8 Either (G E);
    0x0fb7 Movzx16 Either (G E);
    0x0fba / 4 Bt Either (E Ib) lock;
    0x0fba / 5 Bts Either (E Ib) lock;
    0x0fba / 6 Btr Either (E Ib) lock;
    0x0fba / 7 Btc Either (E Ib) lock;
    0x0fbb Btc Either (E G) lock;
    0x0fbc Bsf Either (G E);
    0x0fbd Bsr Either (G E);
    0x0fbe Movsx8 Either (G E);
    0x0fbf Movsx16 Either (G E);
];

/// For each opcode of one byte, how many rows end below it, a line for 16 opcodes.
pub const ROWS_BELOW: [u16; 256] = counts![
    0 1 2 3 4 5 6 7 8 9 10 11 12 13 14 15
    15 16 17 18 19 20 21 22 23 24 25 26 27 28 29 30
    31 32 33 34 35 36 37 37 37 38 39 40 41 42 43 43
    43 44 45 46 47 48 49 49 49 50 51 52 53 54 55 55
    55 55 55 55 55 55 55 55 56 56 56 56 56 56 56 56
    57 57 57 57 57 57 57 57 58 58 58 58 58 58 58 58
    59 60 61 62 63 63 63 63 63 64 65 66 67 67 67 67
    67 68 69 70 71 72 73 74 75 76 77 78 79 80 81 82
    83 91 99 99 107 108 109 110 111 112 113 114 115 116 117 119
    120 121 121 121 121 121 121 121 122 123 124 125 126 127 128 129
    130 131 132 133 134 135 136 137 138 139 140 141 142 143 144 145
    146 146 146 146 146 146 146 146 147 147 147 147 147 147 147 147
    148 155 162 163 164 165 166 167 168 168 169 170 171 172 173 174
    175 182 189 196 203 203 203 203 204 204 204 204 204 204 204 204
    205 206 207 208 209 210 211 212 213 214 215 216 217 218 219 220
    221 221 221 221 221 222 223 230 237 238 239 240 241 242 243 245
];

/// For each opcode 0Fh xx, how many rows end below it, a line for 16 opcodes.
pub const ESCAPED_ROWS_BELOW: [u16; 256] = counts![
    252 258 264 265 266 266 266 267 267 267 267 267 267 267 267 267
    267 267 267 267 267 267 267 267 267 267 267 267 267 267 267 267
    267 268 268 269 269 269 269 269 269 269 269 269 269 269 269 269
    269 269 269 269 269 269 269 269 269 269 269 269 269 269 269 269
    269 269 269 269 269 269 269 269 269 269 269 269 269 269 269 269
    269 269 269 269 269 269 269 269 269 269 269 269 269 269 269 269
    269 269 269 269 269 269 269 269 269 269 269 269 269 269 269 269
    269 269 269 269 269 269 269 269 269 269 269 269 269 269 269 269
    269 270 271 272 273 274 275 276 277 278 279 280 281 282 283 284
    285 286 287 288 289 290 291 292 293 294 295 296 297 298 299 300
    301 302 303 303 304 305 306 306 306 307 308 308 309 310 311 311
    312 312 312 313 314 315 316 317 318 318 318 322 323 324 325 326
    327 327 327 327 327 327 327 327 327 327 327 327 327 327 327 327
    327 327 327 327 327 327 327 327 327 327 327 327 327 327 327 327
    327 327 327 327 327 327 327 327 327 327 327 327 327 327 327 327
    327 327 327 327 327 327 327 327 327 327 327 327 327 327 327 327
];

/// The table is the one that the manual's opcode map gives.
pub fn rows_are_the_opcodes()
    ensures { OPCODE_ROWS ≡ opcode_rows }
{}

/// The counts are those of the table.
#[tactic(auto, unfolding(crate::specs::Rows::counts_from, crate::specs::Rows::rows_below))]
pub fn counts_are_of_the_rows()
    ensures one_byte { ROWS_BELOW ≡ counts_from 0 256 opcode_rows }
    ensures escaped { ESCAPED_ROWS_BELOW ≡ counts_from 0xf00 256 opcode_rows }
{}

/// The rows rise, and each ends below the begin of the next.
pub fn rows_rise()
    ensures { rising opcode_rows ≡ true }
{}

/// No two rows cover one key.
pub fn one_row_for_a_key()
    ensures { (r s : Row) (key : ℕ) → Contains opcode_rows r → Contains opcode_rows s → Covers r key → Covers s key → r ≡ s }
{}
