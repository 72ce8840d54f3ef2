//! The names of operations.

/// The name of an operation (PRM 17.2.2). Each of the sixteen conditions has a name of its own.
#[derive(Clone, Copy, Debug, PartialEq, Eq)]
pub enum Name {
    // Arithmetic and logic.
    /// Sum of two operands.
    Add,
    /// Bits of either operand.
    Or,
    /// Sum of two operands and CF.
    Adc,
    /// Difference of two operands and CF.
    Sbb,
    /// Bits of both operands.
    And,
    /// Difference of two operands.
    Sub,
    /// Bits of just one operand.
    Xor,
    /// Flags of a difference.
    Cmp,
    /// Flags of the bits of both operands.
    Test,
    /// Plus 1.
    Inc,
    /// Minus 1.
    Dec,
    /// Each bit turned.
    Not,
    /// 0 minus the operand.
    Neg,
    /// Unsigned product.
    Mul,
    /// Signed product, with one, two or three operands.
    Imul,
    /// Unsigned quotient and remainder.
    Div,
    /// Signed quotient and remainder.
    Idiv,

    // Shifts and bits.
    /// Rotate left.
    Rol,
    /// Rotate right.
    Ror,
    /// Rotate left through CF.
    Rcl,
    /// Rotate right through CF.
    Rcr,
    /// Shift left.
    Shl,
    /// Shift right, zeros in.
    Shr,
    /// Shift right, the sign in.
    Sar,
    /// Shift left, with bits of a second register in.
    Shld,
    /// Shift right, with bits of a second register in.
    Shrd,
    /// Bit test.
    Bt,
    /// Bit test and set.
    Bts,
    /// Bit test and reset.
    Btr,
    /// Bit test and complement.
    Btc,
    /// The lowest bit that is set.
    Bsf,
    /// The highest bit that is set.
    Bsr,

    // Moves.
    /// Move, also of a segment register and of CR0.
    Mov,
    /// Move of a byte with zeros above; the width is the destination's.
    Movzx8,
    /// Move of a word with zeros above; the width is the destination's.
    Movzx16,
    /// Move of a byte with its sign above; the width is the destination's.
    Movsx8,
    /// Move of a word with its sign above; the width is the destination's.
    Movsx16,
    /// Exchange.
    Xchg,
    /// The offset of a memory operand.
    Lea,
    /// The sign of AL into AX, or of AX into EAX.
    Cwde,
    /// The sign of AX into DX, or of EAX into EDX.
    Cdq,
    /// A byte of a table into AL.
    Xlat,
    /// Far pointer into ES and a register.
    Les,
    /// Far pointer into DS and a register.
    Lds,
    /// Far pointer into SS and a register.
    Lss,
    /// Far pointer into FS and a register.
    Lfs,
    /// Far pointer into GS and a register.
    Lgs,

    // The stack.
    /// Push of a register, a segment register, memory or an immediate.
    Push,
    /// Pop into a register, a segment register or memory.
    Pop,
    /// Push of the eight general registers.
    Pusha,
    /// Pop of seven general registers.
    Popa,
    /// Push of the flags.
    Pushf,
    /// Pop of the flags.
    Popf,
    /// The end of a procedure's frame.
    Leave,

    // String operations.
    /// Move of an item.
    Movs,
    /// Comparison of two items.
    Cmps,
    /// Store of the accumulator.
    Stos,
    /// Load of the accumulator.
    Lods,
    /// Comparison of the accumulator with an item.
    Scas,

    // Jumps and calls.
    /// Near jump.
    Jmp,
    /// Far jump.
    Jmpf,
    /// Near call.
    Call,
    /// Far call.
    Callf,
    /// Near return.
    Ret,
    /// Far return.
    Retf,
    /// Return from an interrupt.
    Iret,
    /// Interrupt by number.
    Int,
    /// Interrupt 3, a breakpoint.
    Int3,
    /// Interrupt 4 if OF is 1.
    Into,
    /// Count ECX down, and jump if it isn't 0 and ZF is 0.
    Loopnz,
    /// Count ECX down, and jump if it isn't 0 and ZF is 1.
    Loopz,
    /// Count ECX down, and jump if it isn't 0.
    Loop,
    /// Jump if ECX is 0.
    Jecxz,

    // Jumps on a condition.
    /// Jump if OF is 1.
    Jo,
    /// Jump if OF is 0.
    Jno,
    /// Jump if CF is 1.
    Jb,
    /// Jump if CF is 0.
    Jae,
    /// Jump if ZF is 1.
    Je,
    /// Jump if ZF is 0.
    Jne,
    /// Jump if CF or ZF is 1.
    Jbe,
    /// Jump if CF and ZF are 0.
    Ja,
    /// Jump if SF is 1.
    Js,
    /// Jump if SF is 0.
    Jns,
    /// Jump if PF is 1.
    Jp,
    /// Jump if PF is 0.
    Jnp,
    /// Jump if SF isn't OF.
    Jl,
    /// Jump if SF is OF.
    Jge,
    /// Jump if ZF is 1 or SF isn't OF.
    Jle,
    /// Jump if ZF is 0 and SF is OF.
    Jg,

    // Bytes set by a condition.
    /// 1 if OF is 1, else 0.
    Seto,
    /// 1 if OF is 0, else 0.
    Setno,
    /// 1 if CF is 1, else 0.
    Setb,
    /// 1 if CF is 0, else 0.
    Setae,
    /// 1 if ZF is 1, else 0.
    Sete,
    /// 1 if ZF is 0, else 0.
    Setne,
    /// 1 if CF or ZF is 1, else 0.
    Setbe,
    /// 1 if CF and ZF are 0, else 0.
    Seta,
    /// 1 if SF is 1, else 0.
    Sets,
    /// 1 if SF is 0, else 0.
    Setns,
    /// 1 if PF is 1, else 0.
    Setp,
    /// 1 if PF is 0, else 0.
    Setnp,
    /// 1 if SF isn't OF, else 0.
    Setl,
    /// 1 if SF is OF, else 0.
    Setge,
    /// 1 if ZF is 1 or SF isn't OF, else 0.
    Setle,
    /// 1 if ZF is 0 and SF is OF, else 0.
    Setg,

    // Ports.
    /// Read of a port.
    In,
    /// Write of a port.
    Out,

    // Flags.
    /// CF becomes 0.
    Clc,
    /// CF becomes 1.
    Stc,
    /// CF is turned.
    Cmc,
    /// DF becomes 0.
    Cld,
    /// DF becomes 1.
    Std,
    /// IF becomes 0.
    Cli,
    /// IF becomes 1.
    Sti,
    /// AH into the flags.
    Sahf,
    /// The flags into AH.
    Lahf,

    // Protection and the system.
    /// RPL of a selector raised to that of another.
    Arpl,
    /// Index tested against two bounds.
    Bound,
    /// Access rights of a selector.
    Lar,
    /// Limit of a selector.
    Lsl,
    /// Whether a segment can be read.
    Verr,
    /// Whether a segment can be written.
    Verw,
    /// Store of the selector of LDTR.
    Sldt,
    /// Load of LDTR.
    Lldt,
    /// Store of the selector of TR.
    Str,
    /// Load of TR.
    Ltr,
    /// Store of GDTR.
    Sgdt,
    /// Load of GDTR.
    Lgdt,
    /// Store of IDTR.
    Sidt,
    /// Load of IDTR.
    Lidt,
    /// Store of the machine status word.
    Smsw,
    /// Load of the machine status word.
    Lmsw,
    /// TS becomes 0.
    Clts,
    /// Halt until an event comes.
    Hlt,

    // Others.
    /// Nothing.
    Nop,
    /// Wait for the coprocessor.
    Wait,
    /// An instruction of the coprocessor, D8h to DFh.
    Esc,
}
