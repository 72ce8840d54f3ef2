//! What a processor's thread passes before each cycle that begins a locked group, or stands alone.

/// Where a processor's thread may be held back. It holds neither lock nor ticket then.
pub trait Gate {
    /// Lets processor `cpu` go on, which has made `made` cycles so far. It answers nothing, and an implementation that
    /// holds what it waits on may wait.
    fn pass(&self, cpu: u8, made: u32);
}

/// A gate that returns at once.
#[derive(Clone, Copy, Debug, Default, PartialEq, Eq)]
pub struct OpenGate;

impl Gate for OpenGate {
    fn pass(&self, _cpu: u8, _made: u32) {}
}
