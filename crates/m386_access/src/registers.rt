//! The numbers of the general registers that operations name by themselves (PRM 2.3.1, 17.2.1).

/// The number of EAX, and of its low parts AX and AL.
pub const EAX: u8 = 0;
/// The number of ECX.
pub const ECX: u8 = 1;
/// The number of EDX, and of its low parts DX and DL.
pub const EDX: u8 = 2;
/// The number of ESP.
pub const ESP: u8 = 4;
/// The number of AH among the registers of 8 bits.
pub const AH: u8 = 4;
/// The number of EBP.
pub const EBP: u8 = 5;
/// The number of ESI.
pub const ESI: u8 = 6;
/// The number of EDI.
pub const EDI: u8 = 7;
