//! How large an output will be, before its first byte is written.

use crate::faults::Fault;
use crate::files::Input;
use std::io;
use std::io::Write;

/// A writer that counts bytes, and keeps none.
#[derive(Drop)]
pub(crate) struct Measure {
    count: u64,
}

impl Measure {
    pub(crate) fn new() -> Measure {
        Measure { count: 0 }
    }

    /// Whether there is no output.
    pub(crate) fn is_empty(&self) -> bool {
        self.count == 0
    }

    /// The output is one that the program reads as such a file.
    ///
    /// # Errors
    ///
    /// `Unreadable` if it has more bytes than such a file may have.
    pub(crate) fn judge(&self, input: Input) -> Result<(), Fault> {
        if self.count > u64::from(input.most()) {
            return Err(Fault::Unreadable(input));
        }
        Ok(())
    }
}

impl Write for Measure {
    ghost use Rattle.std.specs.Prelude.{None};
    ghost use Rattle.std.specs.Io.{WritesAtMost};
    ghost use Rattle.std.specs.Io.KnownBytes.{Keeps, WriteAppends};

    fn write(&mut self, buf: &[u8]) -> io::Result<usize>
        ensures bound { WritesAtMost result buf.now }
        ensures bytes { WriteAppends None None result buf.now }
    {
        self.count = self.count.saturating_add(buf.len() as u64);
        Ok(buf.len())
    }

    fn flush(&mut self) -> io::Result<()>
        ensures bytes { Keeps None None }
    {
        Ok(())
    }
}
