//! The numbers of the segment registers (PRM 2.3.2, 17.2.1).

/// The number of ES.
pub const ES: u8 = 0;
/// The number of CS.
pub const CS: u8 = 1;
/// The number of SS.
pub const SS: u8 = 2;
/// The number of DS.
pub const DS: u8 = 3;
/// The number of FS.
pub const FS: u8 = 4;
/// The number of GS.
pub const GS: u8 = 5;
