//! What is wrong with the words of a call.
ghost use Rattle.std.specs.Prelude.{◌≡◌};
ghost use Rattle.m386_calls.specs.Usage.{usage_number, usage_name};

/// What is wrong with the words.
#[derive(Clone, Copy, Debug, PartialEq, Eq)]
pub enum UsageKind {
    /// There is no word, or the first isn't a command.
    Command,
    /// The words behind the command aren't options of it with a value each, or an option stands twice.
    Line,
    /// The value of an option is outside its limits.
    Value,
    /// More processors are asked for than the image has.
    Cpus,
    /// Processors times steps is more than a run may have.
    Budget,
}

impl UsageKind {
    /// Its number, from 1.
    pub fn number(self) -> u8
        ensures { result ≡ usage_number self }
    {
        match self {
            UsageKind::Command => 1,
            UsageKind::Line => 2,
            UsageKind::Value => 3,
            UsageKind::Cpus => 4,
            UsageKind::Budget => 5,
        }
    }

    /// Its name.
    pub fn name(self) -> &'static str
        ensures { result.now ≡ usage_name self }
    {
        match self {
            UsageKind::Command => "Command",
            UsageKind::Line => "Line",
            UsageKind::Value => "Value",
            UsageKind::Cpus => "Cpus",
            UsageKind::Budget => "Budget",
        }
    }
}
