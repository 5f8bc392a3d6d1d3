//! Why a line wasn't read.
ghost use Rattle.std.specs.Prelude.{◌≡◌};
ghost use Rattle.fb_reading.specs.Keys.{key_text};

use std::alloc::AllocError;

/// The keys of lines and of the calls in them, and any other.
#[derive(Debug, Drop, Clone, Copy, PartialEq, Eq)]
pub enum Key {
    Args,
    Callee,
    Calls,
    Cause,
    Code,
    Count,
    Failed,
    Fault,
    Fuel,
    Id,
    Index,
    Invs,
    Kind,
    Method,
    Outcome,
    Parent,
    Plan,
    Plans,
    Pruned,
    Reduction,
    Reply,
    Run,
    Site,
    Steps,
    Stopped,
    Uses,
    Version,
    /// A key that the line doesn't want.
    Other,
}

impl Key {
    /// The key as lines spell it.
    pub fn text(self) -> &'static str
        ensures { result.now ≡ key_text self }
    {
        match self {
            Key::Args => "args",
            Key::Callee => "callee",
            Key::Calls => "calls",
            Key::Cause => "cause",
            Key::Code => "code",
            Key::Count => "count",
            Key::Failed => "failed",
            Key::Fault => "fault",
            Key::Fuel => "fuel",
            Key::Id => "id",
            Key::Index => "index",
            Key::Invs => "invs",
            Key::Kind => "kind",
            Key::Method => "method",
            Key::Outcome => "outcome",
            Key::Parent => "parent",
            Key::Plan => "plan",
            Key::Plans => "plans",
            Key::Pruned => "pruned",
            Key::Reduction => "reduction",
            Key::Reply => "reply",
            Key::Run => "run",
            Key::Site => "site",
            Key::Steps => "steps",
            Key::Stopped => "stopped",
            Key::Uses => "uses",
            Key::Version => "version",
            Key::Other => "",
        }
    }
}

/// Why bytes gave no line.
#[derive(Debug, Drop, Clone, Copy, PartialEq, Eq)]
pub enum LineError {
    /// serde_json reads no tree from them.
    NotJson,
    /// The key is missing or unwanted, or its value is none that it may have.
    BadShape { key: Key },
    /// A number of the line itself is no integer in its range.
    BadNumber { key: Key },
    Memory,
}

impl From<AllocError> for LineError {
    ghost use Rattle.std.specs.Prelude.{◌≡◌};
    ghost use Rattle.fb_reading.specs.declared.key.LineError.TheVariants.{Memory};

    ghost from_gives = { λ _ e. e ≡ Memory };

    fn from(_e: AllocError) -> LineError {
        LineError::Memory
    }
}
