//! Where a fault is: what a line begins with.

use std::fmt;

/// The part of a file, or of what a level is sent, that has the fault.
#[derive(Clone, Copy, Debug, PartialEq, Eq)]
pub enum Part {
    /// The whole file.
    Whole,
    /// The request of this number.
    Request(u32),
    /// The line of this number, from 1.
    Line(u32),
    /// The line of the second number, from 1, which has the fault of the first number.
    Fault(u8, u64),
    /// The line of this number, from 1, of those that a level is sent.
    Sent(u64),
}

/// A part of the file of this name.
#[derive(Clone, Copy)]
pub struct Place<'a> {
    pub name: &'a str,
    pub part: Part,
}

impl fmt::Display for Place<'_> {
    ghost use Rattle.std.specs.Prelude.{Some};
    ghost use Rattle.apf_explain.specs.Lines.{place_text};

    ghost output = { λ place. Some (place_text place.name.now place.part) };

    fn fmt<W: fmt::Write>(&self, f: &mut fmt::Formatter<W>) -> fmt::Result {
        let name = self.name;
        match self.part {
            Part::Whole => write!(f, "{name}: "),
            Part::Request(number) => write!(f, "{name}: request {number}: "),
            Part::Line(number) => write!(f, "{name}:{number}: "),
            Part::Fault(number, line) => write!(f, "{name} fault {number} at line {line}: "),
            Part::Sent(line) => write!(f, "{name} {line} "),
        }
    }
}
