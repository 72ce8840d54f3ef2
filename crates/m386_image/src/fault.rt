//! Why bytes are no image.
ghost use Rattle.std.specs.Prelude.{◌≡◌};
ghost use Rattle.m386_image.specs.Fault.{fault_number, fault_name};
ghost use Rattle.m386_image.specs.declared.fault.ReadStop.TheVariants.{Memory, Bad};

use m386_base::fault::NoMemory;

/// What is wrong with bytes that are no image, in the order in which it is looked for.
#[derive(Clone, Copy, Debug, PartialEq, Eq)]
pub enum ImageFault {
    /// Fewer than 64 bytes.
    ShortHeader = 1,
    /// The first four bytes are not the text `M386`.
    Magic,
    /// The version is not 1.
    Version,
    /// The memory is below 4,096 or above 16,777,216 bytes, or no multiple of 4,096.
    MemorySize,
    /// No processor, or more than 8.
    Processors,
    /// A flag bit is set of a processor that there is not.
    Flags,
    /// The bytes end within the plan entries and sections that the header counts.
    Truncated,
    /// An entry of the plan is of a processor that there is not, or doesn't come behind the entry before it: by processor, and
    /// then by step.
    PlanOrder,
    /// A section ends past the memory, or begins below the end of the section before it.
    Section,
    /// A byte stands behind the last section.
    Trailing,
}

impl ImageFault {
    /// The fault's number, 1 to 10.
    pub fn number(self) -> u8
        ensures { result ≡ fault_number self }
    {
        self as u8
    }

    /// The fault's name, as this type has it.
    pub fn name(self) -> &'static str
        ensures { result.now ≡ fault_name self }
    {
        match self {
            ImageFault::ShortHeader => "ShortHeader",
            ImageFault::Magic => "Magic",
            ImageFault::Version => "Version",
            ImageFault::MemorySize => "MemorySize",
            ImageFault::Processors => "Processors",
            ImageFault::Flags => "Flags",
            ImageFault::Truncated => "Truncated",
            ImageFault::PlanOrder => "PlanOrder",
            ImageFault::Section => "Section",
            ImageFault::Trailing => "Trailing",
        }
    }
}

/// Why there is no image.
#[derive(Clone, Copy, Debug, PartialEq, Eq)]
pub enum ReadStop {
    /// There was no memory to keep the image.
    Memory,
    /// The bytes are no image, and this is the first fault.
    Bad(ImageFault),
}

impl From<ImageFault> for ReadStop {
    ghost from_gives = { λ fault stop. stop ≡ Bad fault };

    fn from(fault: ImageFault) -> Self {
        ReadStop::Bad(fault)
    }
}

impl From<NoMemory> for ReadStop {
    ghost from_gives = { λ _ stop. stop ≡ Memory };

    fn from(_: NoMemory) -> Self {
        ReadStop::Memory
    }
}
