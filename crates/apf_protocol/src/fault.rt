//! Why a line is no command, and how that is written.

ghost use Rattle.std.specs.Prelude.{◌≡◌, OnOk, IfSome, None, option_map, option_and_then, codes};
ghost use Rattle.std.specs.Io.KnownBytes.{Appends};
ghost use Rattle.serde_json.specs.View.{view};
ghost use Rattle.apf_explain.specs.Lines.{place_text};
ghost use Rattle.apf_protocol.specs.Faults.{value_text, not_json_text, fault_text, value_in};

use apf_explain::{
    Keys, Part, Place, Wanted, value_at, write_bad_flow, write_column, write_unknown_key,
    write_unwanted,
};
use apf_words::{MAX_COST, MAX_WIDTH};
use serde_json::Value;
use std::error::Error;
use std::io::Write;
use std::{fmt, io};

/// Why a line is no command, in the order in which a line is judged, but for the last four: `BadTime` comes behind `BadNumber`,
/// `BadLimit` is of lines that have no other fault behind `BadLine`, `UsedUp` is found by the level, and `Truncated` is of bytes
/// that no LF ends.
#[derive(Clone, Copy, Debug, PartialEq, Eq)]
pub enum FaultKind {
    /// The line has more than 65,536 bytes. Its LF does not count.
    TooLong,
    /// The line has none of the forms.
    BadLine,
    /// The number of the request is not below the level's slots.
    BadNumber,
    /// An arrival of this number, under which a request is there.
    IsThere(u32),
    /// A finish or a cancel of this number, under which no request is there.
    IsNotThere(u32),
    /// Memory was refused.
    NoMemory,
    /// The text of the object is no JSON.
    NotJson,
    /// The object has a key that arrivals do not have.
    UnknownKey,
    /// There is neither `hash` alone, a number of 64 bits, nor both `schema` and `distinguisher` alone, two texts.
    BadFlow,
    /// `width` is not a whole number from 1 to 20,000.
    BadWidth,
    /// `cost` is not a whole number from 1 to 4,294,967,295.
    BadCost,
    /// The time that a request is said to have run is above 10^12 microseconds.
    BadTime,
    /// The limit is outside 1 to 10,000.
    BadLimit,
    /// The number was given to as many requests as it can be, 2^46, and none of them is there.
    UsedUp(u32),
    /// No LF ends the bytes, and no more of them will come.
    Truncated,
}

impl fmt::Display for FaultKind {
    ghost use Rattle.std.specs.Prelude.{Some};
    ghost use Rattle.apf_protocol.specs.Faults.{kind_text};

    ghost output = { λ kind. Some (kind_text kind) };

    fn fmt<W: fmt::Write>(&self, f: &mut fmt::Formatter<W>) -> fmt::Result {
        match self {
            FaultKind::TooLong => f.write_str("line too long"),
            FaultKind::BadLine => f.write_str("bad line"),
            FaultKind::BadNumber => f.write_str("bad number"),
            FaultKind::IsThere(number) => write!(f, "{number} is there"),
            FaultKind::IsNotThere(number) => write!(f, "{number} is not there"),
            FaultKind::NoMemory => f.write_str("out of memory"),
            FaultKind::NotJson => f.write_str("this is not JSON"),
            FaultKind::UnknownKey => f.write_str("a key is unknown"),
            FaultKind::BadFlow => f.write_str("the flow is bad"),
            FaultKind::BadWidth => f.write_str("the width is bad"),
            FaultKind::BadCost => f.write_str("the cost is bad"),
            FaultKind::BadTime => f.write_str("bad time"),
            FaultKind::BadLimit => f.write_str("bad limit"),
            FaultKind::UsedUp(number) => write!(f, "{number} is used up"),
            FaultKind::Truncated => f.write_str("truncated"),
        }
    }
}

impl Error for FaultKind {}

/// What was found where a fault is, which its line tells.
#[derive(Debug, Drop)]
pub enum Found {
    /// Nothing that is told.
    Nothing,
    /// The column, in bytes from 1, at which the text of an object stops to be JSON, and what is known of why.
    Column(usize, &'static str),
    /// The value of an object.
    Object(Value),
}

/// Why a line is no command, with what its text tells.
#[derive(Debug, Drop)]
pub struct LineFault {
    /// The fault.
    pub kind: FaultKind,
    /// What was found there. It is the column of an object that is not JSON, and the value of one that has another fault.
    pub found: Found,
}

impl From<FaultKind> for LineFault {
    ghost use Rattle.apf_protocol.specs.declared.fault.Found.TheVariants.{Nothing};

    ghost from_gives = { λ kind fault. (fault.kind ≡ kind) × (fault.found ≡ Nothing) };

    fn from(kind: FaultKind) -> Self {
        LineFault {
            kind,
            found: Found::Nothing,
        }
    }
}

impl LineFault {
    // The value of the object that has the fault.
    fn value(&self) -> Option<&Value>
        ensures { option_map (λ value. view value.now) result ≡ value_in self.now.found }
    {
        match &self.found {
            Found::Object(value) => Some(value),
            Found::Nothing | Found::Column(..) => None,
        }
    }

    // Writes what is wrong with an object that is no JSON.
    fn write_not_json<W: Write>(&self, out: &mut W, place: Place<'_>) -> io::Result<()>
        ensures { OnOk result (Appends (W.contents out.old) (W.contents out.new) (not_json_text (place_text place.entry.name.now place.entry.part) self.now.found)) }
    {
        match &self.found {
            Found::Column(column, why) => write_column(out, place, *column, why),
            Found::Nothing | Found::Object(_) => writeln!(out, "{place}this is not JSON"),
        }
    }

    // Writes what is wrong with the value of an object.
    fn write_value<W: Write>(&self, out: &mut W, place: Place<'_>) -> io::Result<()>
        ensures { OnOk result (IfSome (value_text (place_text place.entry.name.now place.entry.part) (value_in self.now.found) self.now.kind)
            (Appends (W.contents out.old) (W.contents out.new))) }
    {
        let value = self.value();
        match self.kind {
            FaultKind::UnknownKey => write_unknown_key(out, place, Keys::OfArrival, value),
            FaultKind::BadFlow => write_bad_flow(out, place, value),
            FaultKind::BadWidth => write_unwanted(
                out,
                place,
                "width",
                value_at(value, "width"),
                Wanted::Whole(1, u64::from(MAX_WIDTH)),
            ),
            FaultKind::BadCost => write_unwanted(
                out,
                place,
                "cost",
                value_at(value, "cost"),
                Wanted::Whole(1, u64::from(MAX_COST)),
            ),
            kind => writeln!(out, "{place}{kind}"),
        }
    }

    /// Writes `fault L TEXT`, where the line has the number L, with the LF that ends it. It takes no memory.
    ///
    /// Of an object the text says what is wrong by key, value and range, in the words that a trace's fault is said in.
    ///
    /// # Errors
    ///
    /// The writer's. Then nothing is known of how much was written.
    pub fn write<W: Write>(&self, out: &mut W, line: u64) -> io::Result<()>
        ensures { OnOk result (IfSome (fault_text line self.now.kind self.now.found) (Appends (W.contents out.old) (W.contents out.new))) }
    {
        let place = Place {
            name: "fault",
            part: Part::Sent(line),
        };
        match self.kind {
            FaultKind::NotJson => self.write_not_json(out, place),
            _ => self.write_value(out, place),
        }
    }
}
