//! The keys that are read.

use std::fmt;

/// A key that is read of a line.
#[derive(Clone, Copy, Debug, PartialEq, Eq)]
pub enum Key {
    /// The id of the request in the audit log.
    AuditId,
    /// The name of the request's flow schema.
    Schema,
    /// The name of its priority level.
    Level,
    /// The seats that it has while it runs.
    Seats,
    /// The seats that it has for the additional latency behind it.
    FinalSeats,
    /// How long it ran.
    ExecutionTime,
    /// How long it has seats behind that.
    AdditionalLatency,
}

impl Key {
    ghost use Rattle.std.specs.Prelude.{◌≡◌};
    ghost use Rattle.apf_request_lines.specs.Pairs.{name_of};

    /// How it is written.
    pub fn name(self) -> &'static str
        ensures { result.now ≡ name_of self }
    {
        match self {
            Key::AuditId => "audit-ID",
            Key::Schema => "apf_fs",
            Key::Level => "apf_pl",
            Key::Seats => "apf_iseats",
            Key::FinalSeats => "apf_fseats",
            Key::ExecutionTime => "apf_execution_time",
            Key::AdditionalLatency => "apf_additionalLatency",
        }
    }
}

impl fmt::Display for Key {
    ghost use Rattle.std.specs.Prelude.{Some};
    ghost use Rattle.apf_request_lines.specs.Pairs.{name_of};

    ghost output = { λ key. Some (name_of key) };

    fn fmt<W: fmt::Write>(&self, f: &mut fmt::Formatter<W>) -> fmt::Result {
        f.write_str(self.name())
    }
}
