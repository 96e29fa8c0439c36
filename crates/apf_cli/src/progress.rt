//! The line on standard error of how far a command is, which a person sees who waits for it.

ghost use Rattle.std.specs.Prelude.{◌≡◌, ◌≤◌, IfSome};

use apf_run::rounds::Watch;
use apf_simulator::{Lane, Progress};
use std::cell::Cell;
use std::io::{IsTerminal, Read, Write};
use std::time::{Clock, Duration, Instant};
use std::{io, thread};

/// How long a line stands before the next one, in milliseconds, at least.
const PAUSE: u64 = 250;

/// How long the workers of a run are left alone before it is seen whether they are at their ends, in milliseconds.
const SHORT_PAUSE: u64 = 20;

/// How many characters a line has, at most.
const MOST_WIDTH: usize = 128;

/// How much of an input was read: bytes and lines. How many bytes there are in all, if that is known.
#[derive(Drop)]
pub(crate) struct Amount {
    bytes: Cell<u64>,
    lines: Cell<u64>,
    all: Cell<Option<u64>>,
}

impl Amount {
    /// Nothing was read of so many bytes, if it is known how many there are.
    pub(crate) fn of(all: Option<u64>) -> Amount {
        Amount {
            bytes: Cell::new(0),
            lines: Cell::new(0),
            all: Cell::new(all),
        }
    }

    /// So many bytes there are in all, if that is known.
    pub(crate) fn is_of(&self, all: Option<u64>) {
        self.all.set(all);
    }

    /// These bytes more were read.
    pub(crate) fn add(&self, bytes: &[u8]) {
        let lines = bytes.iter().filter(|byte| **byte == b'\n').count();
        self.bytes
            .set(self.bytes.get().saturating_add(bytes.len() as u64));
        self.lines
            .set(self.lines.get().saturating_add(lines as u64));
    }

    // How many hundredths so many are of all, if that is known.
    fn part(&self, done: u64) -> Option<u64> {
        percent_of(u128::from(done), self.all.get()?)
    }

    // How many hundredths of all are done, where the requests of so many lines came: the lines that were read are taken to be of one
    // length.
    fn percent(&self, came: u64) -> Option<u64> {
        let read = u128::from(self.bytes.get()) * u128::from(came);
        let done = read.checked_div(u128::from(self.lines.get()))?;
        percent_of(done, self.all.get()?)
    }
}

// How many hundredths this is of all, at most 100: a file may grow while it is read. Of nothing there are none.
fn percent_of(part: u128, all: u64) -> Option<u64>
    ensures { IfSome result (λ percent. percent ≤ 100) }
{
    let all = u128::from(all);
    let percent = (part.min(all) * 100).checked_div(all)?;
    Some(percent.min(100) as u64)
}

// When the newest line was shown, and how many requests had come then, or how many lines were read. Before that: when the command
// began.
#[derive(Clone, Copy)]
struct Shown {
    at: Instant,
    count: u64,
}

/// How far a command is.
#[derive(Clone, Copy)]
pub(crate) struct Distance {
    /// How many requests came, or how many lines were read.
    pub(crate) count: u64,
    /// Which of the two.
    pub(crate) unit: &'static str,
    /// The time of a simulation, in microseconds.
    pub(crate) time: Option<u64>,
    /// How many requests wait, where some can.
    pub(crate) waiting: Option<u64>,
    /// How many hundredths are done, if that is known.
    pub(crate) percent: Option<u64>,
}

/// A line that is shown at most four times a second, and is cleared at the end. A write of it that fails changes nothing.
#[derive(Drop)]
pub(crate) struct ProgressLine<'a, C: Clock, E: Write> {
    clock: &'a C,
    // standard error; none where nobody sees the line
    err: Option<&'a mut E>,
    amount: &'a Amount,
    // none where the clock can't be read
    shown: Option<Shown>,
    // how many characters stand on the line
    width: usize,
}

// Writes how far a command is, where so many come a second.
fn write_distance<W: Write>(out: &mut W, distance: Distance, rate: u64) -> io::Result<()> {
    let Distance {
        count,
        unit,
        time,
        waiting,
        percent,
    } = distance;
    write!(out, "{count} {unit}")?;
    if let Some(time) = time {
        let seconds = time / 1_000_000;
        write!(out, ", {seconds} s of the trace")?;
    }
    write!(out, ", {rate} a second")?;
    if let Some(waiting) = waiting {
        write!(out, ", {waiting} wait")?;
    }
    if let Some(percent) = percent {
        write!(out, ", {percent} %")?;
    }
    Ok(())
}

// How many come a second, of which this many came in this time.
fn rate_of(count: u64, time: Duration) -> u64 {
    let micros = time.as_micros().max(1);
    let rate = u128::from(count) * 1_000_000 / micros;
    rate.min(u128::from(u64::MAX)) as u64
}

impl<'a, C: Clock, E: Write + IsTerminal> ProgressLine<'a, C, E> {
    /// Nothing is shown yet. Lines are shown on standard error if it is a terminal, and if the command does not print on it
    /// meanwhile. The amount says how much there is to be done: bytes of an input, or requests of a run.
    pub(crate) fn new(
        clock: &'a C,
        err: &'a mut E,
        is_shared: bool,
        amount: &'a Amount,
    ) -> ProgressLine<'a, C, E> {
        let is_seen = err.is_terminal() && !is_shared;
        let at = if is_seen {
            Instant::now(clock).ok()
        } else {
            None
        };
        ProgressLine {
            clock,
            err: if is_seen { Some(err) } else { None },
            amount,
            shown: at.map(|at| Shown { at, count: 0 }),
            width: 0,
        }
    }
}

impl<C: Clock, E: Write> ProgressLine<'_, C, E> {
    /// Whether lines are shown.
    pub(crate) fn is_seen(&self) -> bool {
        self.shown.is_some()
    }

    // The time, and how long it is since the newest line, if the next one is due.
    fn due(&self) -> Option<(Instant, Duration)> {
        let shown = self.shown?;
        let now = Instant::now(self.clock).ok()?;
        let since = now.duration_since(shown.at);
        if since < Duration::from_millis(PAUSE) {
            return None;
        }
        Some((now, since))
    }

    // Puts this in the place of what stands on the line.
    fn put(&mut self, text: &[u8]) {
        let Some(err) = &mut self.err else {
            return;
        };
        let mut line = [b' '; MOST_WIDTH + 1];
        line[0] = b'\r';
        let width = text.len().min(MOST_WIDTH);
        line[1..1 + width].copy_from_slice(&text[..width]);
        let end = 1 + width.max(self.width).min(MOST_WIDTH);
        let _ = err.write_all(&line[..end]);
        self.width = width;
    }

    // Shows how far the command is, now, which is so long after the newest line.
    fn show(&mut self, distance: Distance, now: Instant, since: Duration) {
        let before = match self.shown {
            Some(shown) => shown.count,
            None => 0,
        };
        let rate = rate_of(distance.count.saturating_sub(before), since);
        let mut text = [b' '; MOST_WIDTH];
        let mut rest = text.as_mut_slice();
        // what does not fit is left out
        let _ = write_distance(&mut rest, distance, rate);
        let width = MOST_WIDTH - rest.len().min(MOST_WIDTH);
        self.put(&text[..width]);
        self.shown = Some(Shown {
            at: now,
            count: distance.count,
        });
    }

    /// These bytes more were read of an input, of which lines are counted.
    pub(crate) fn read(&mut self, bytes: &[u8]) {
        if !self.is_seen() {
            return;
        }
        self.amount.add(bytes);
        let Some((now, since)) = self.due() else {
            return;
        };
        let distance = Distance {
            count: self.amount.lines.get(),
            unit: "lines",
            time: None,
            waiting: None,
            percent: self.amount.part(self.amount.bytes.get()),
        };
        self.show(distance, now, since);
    }

    /// Clears the line.
    pub(crate) fn clear(&mut self) {
        if self.width > 0 {
            self.put(b"");
            self.put(b"");
        }
    }
}

impl<C: Clock, E: Write> Progress for ProgressLine<'_, C, E> {
    fn go_on(&mut self, lane: &Lane) {
        let Some((now, since)) = self.due() else {
            return;
        };
        let distance = Distance {
            count: lane.came(),
            unit: "requests",
            time: Some(lane.time()),
            waiting: Some(lane.waiting()),
            percent: self.amount.percent(lane.came()),
        };
        self.show(distance, now, since);
    }

    fn end(&mut self) {
        self.clear();
    }
}

impl<C: Clock, E: Write> Watch for ProgressLine<'_, C, E> {
    fn looks(&self) -> bool {
        self.is_seen()
    }

    fn pause(&mut self) -> bool {
        thread::sleep(self.clock, Duration::from_millis(SHORT_PAUSE));
        self.due().is_some()
    }

    fn look(&mut self, came: u64, waiting: u64) {
        let Some((now, since)) = self.due() else {
            return;
        };
        let distance = Distance {
            count: came,
            unit: "requests",
            time: None,
            waiting: Some(waiting),
            percent: self.amount.part(came),
        };
        self.show(distance, now, since);
    }
}

/// An input of which it is noted how much was read.
#[derive(Drop)]
pub(crate) struct Counted<'r, 'a, R: Read> {
    pub(crate) input: &'r mut R,
    pub(crate) amount: &'a Amount,
    /// Whether it is noted: only where a person sees the line.
    pub(crate) is_counted: bool,
}

impl<R: Read> Read for Counted<'_, '_, R> {
    fn read(&mut self, buf: &mut [u8]) -> io::Result<usize> {
        let count = self.input.read(buf)?;
        if self.is_counted {
            if let Some(read) = buf.get(..count) {
                self.amount.add(read);
            }
        }
        Ok(count)
    }
}

/// An input that shows how far it was read.
#[derive(Drop)]
pub(crate) struct Followed<'r, 'l, 'c, R: Read, C: Clock, E: Write> {
    pub(crate) input: &'r mut R,
    pub(crate) line: &'l mut ProgressLine<'c, C, E>,
}

impl<R: Read, C: Clock, E: Write> Read for Followed<'_, '_, '_, R, C, E> {
    fn read(&mut self, buf: &mut [u8]) -> io::Result<usize> {
        let count = self.input.read(buf)?;
        if let Some(read) = buf.get(..count) {
            self.line.read(read);
        }
        Ok(count)
    }
}
