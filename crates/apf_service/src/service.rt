//! A level with its slots, which takes one line of the protocol after another.

ghost use Rattle.std.specs.Prelude.{◌≡◌, ◌≤◌, ◌*◌, ◌++◌, length, string_bytes, replicate, take, IfOk, IfErr, OnOk, Ok, Err};
ghost use Rattle.std.specs.List.{flat_map};
ghost use Rattle.std.specs.Io.KnownBytes.{Appends};
ghost use Rattle.apf_local.specs.Openings.{IsOpened, IsOpenFault};
ghost use Rattle.apf_protocol.specs.declared.answer.Answer.TheVariants.{End};
ghost use Rattle.apf_protocol.specs.Lines.{words as words_of, request_in, IsHeadInRange};
ghost use Rattle.apf_protocol.specs.Commands.{IsCommandInRange};
ghost use Rattle.apf_protocol.specs.Texts.{answer_text};
ghost use Rattle.apf_service.specs.Tallies.{slots_of, IsTallyOf, IsTallied, no_tally};
ghost use Rattle.apf_service.specs.Kept.{state_of, slot_in, is_there as there, is_there_at as there_at, none_given, settling_by, queues_of, none_asked, FollowsAll};
ghost use Rattle.apf_charges.specs.Charging.{opening_charges};
ghost use Rattle.apf_service.specs.Lines.{there_in, words_in, command_in, IsFaultOf, AreNewEvents, Tells, TellsBook, TellsMetrics, Obeys, Serves, WritesIfOk, given_text};

use crate::acting::{arrive, attempt, cancel, close, finish, set_limit, spend};
use crate::following::follow_all;
use crate::metrics::write_metrics;
use crate::queues::no_queues;
use crate::replies::{Refusal, write_told};
use crate::state::{Asked, ServiceState};
use crate::tally::Tally;
use apf_book::LifeEvent;
use apf_charges::{ChargedBy, Charges};
use apf_gate::Ticket;
use apf_local::{LocalLevel, OpenFault, Place, Settling};
use apf_model::{Config, Response};
use apf_protocol::{
    Answer as Told, Command, FaultKind, FirstLine, Form, Given, Head, LineFault, read_command,
    read_form,
};
use apf_texts::Totals;
use apf_traces::ObjectReader;
use std::alloc::Global;
use std::io;
use std::io::Write;

/// A level with its slots. A request's number in the protocol is its slot's.
#[derive(Drop)]
pub struct Service {
    level: LocalLevel,
    notes: ServiceState,
    room: Vec<LifeEvent>,
    config: Config,
    name: String,
    ghost tallied: { IsTallied level notes.tally },
    ghost room_for_new: { length room.items ≡ 2 * length level.places },
}

// Writes the line of a queue, if a request ever entered it.
fn write_given<W: Write>(out: &mut W, given: Given) -> io::Result<()>
    ensures { OnOk result (Appends (W.contents out.old) (W.contents out.new) (given_text given)) }
{
    let entered = given.entered;
    if entered == 0 {
        return Ok(());
    }
    Told::Queue(given).write(out)
}

// Writes the line of each queue that a request ever entered, and `end` behind them.
fn write_queues<W: Write>(out: &mut W, queues: &[Given]) -> io::Result<()>
    ensures { OnOk result (Appends (W.contents out.old) (W.contents out.new) (flat_map given_text queues.now ++ answer_text End)) }
{
    for given in queues {
        write_given(out, *given)?;
    }
    Told::End.write(out)
}

// Whether what requests take is settled, by what they are charged.
fn settling_of(by: ChargedBy) -> Settling
    ensures { result ≡ settling_by by }
{
    match by {
        ChargedBy::Time => Settling::Told,
        ChargedBy::Seats => Settling::Never,
    }
}

// Whether a slot at this place has a request that is there.
fn has_request(place: Place) -> bool
    ensures { result ≡ there_at place }
{
    match place {
        Place::Fresh(_) | Place::Waits | Place::Runs => true,
        Place::Free => false,
    }
}

impl Service {
    /// A level with these settings and this many slots, at most 10,000, under a name that its metrics have, and charged so.
    /// All memory of the level is taken here.
    ///
    /// # Errors
    ///
    /// The first of these: the gate's fault, the dealer's and the queues'. `NoMemory` whenever memory was refused.
    pub fn open(
        alloc: Global,
        config: &Config,
        slots: u32,
        name: String,
        by: ChargedBy,
    ) -> Result<Service, OpenFault>
        ensures opened { IfOk result (λ s. IsOpened config.now slots (settling_by by) s.level) }
        ensures none { IfOk result (λ s. (s.notes.tally ≡ no_tally) × (s.notes.queues.items ≡ none_given (queues_of config.now)) × (s.notes.seen ≡ 0)) }
        ensures charged { IfOk result (λ s. (s.notes.charges ≡ opening_charges by) × (s.notes.asked.items ≡ replicate slots none_asked)) }
        ensures config { IfOk result (λ s. s.config ≡ config.now) }
        ensures name { IfOk result (λ s. s.name ≡ name) }
        ensures fault { IfErr result (IsOpenFault config.now slots) }
    {
        let level = LocalLevel::open_settling(alloc, config, slots, settling_of(by))?;
        let queues = match config.limit_response {
            Response::Queue => config.queues,
            Response::Reject => 0,
        };
        let notes = ServiceState {
            tally: Tally::none(),
            queues: no_queues(alloc, queues)?,
            seen: 0,
            charges: Charges::new(alloc, by)?,
            asked: vec![in alloc; Asked { flow: 0, cost: 0 }; slots as usize]?,
        };
        let no_event = LifeEvent::Enter(Ticket::of(0), 0);
        let room = vec![in alloc; no_event; 2 * slots as usize]?;
        Ok(Service {
            level,
            notes,
            room,
            config: *config,
            name,
        })
    }

    /// The line that tells how the level was opened.
    pub fn first_line(&self) -> FirstLine
        ensures { result ≡ record { slots = length self.now.level.places; config = self.now.config } }
    {
        FirstLine {
            slots: self.level.slots() as u32,
            config: self.config,
        }
    }

    /// The numbers: who waits, who executes, and what was decided.
    pub fn tally(&self) -> Tally
        ensures numbers { result ≡ self.now.notes.tally }
        ensures add_up { IsTallyOf (slots_of self.now.level) result }
    {
        self.notes.tally
    }

    // Whether a request is there under the number.
    fn is_there(&self, slot: u32) -> bool
        ensures { result ≡ there (slot_in (state_of self.now.level self.now.notes) slot) }
    {
        (slot as usize) < self.level.slots() && has_request(self.level.held(slot as usize))
    }

    // Whether a request is there under the number that the words name.
    fn is_there_under(&self, head: Head) -> bool
        ensures { result ≡ there_in (state_of self.now.level self.now.notes) (request_in head) }
    {
        match head.number() {
            Some(slot) => self.is_there(slot),
            None => false,
        }
    }

    // The words of the line, if it is not wrong that a request is there under their number, or that none is.
    #[tactic(auto, unfolding(crate::specs::Lines::words_in))]
    fn words<'b>(&self, line: &'b [u8]) -> Result<Form<'b>, FaultKind>
        ensures ok { IfOk result (λ form. words_in (state_of self.now.level self.now.notes) line.now ≡ Ok (words_of form)) }
        ensures ranges { IfOk result (λ form. IsHeadInRange (length self.now.level.places) form.head) }
        ensures err { IfErr result (λ kind. words_in (state_of self.now.level self.now.notes) line.now ≡ Err kind) }
    {
        let form = read_form(line, self.level.slots() as u32)?;
        match form.head.occupancy_fault(self.is_there_under(form.head)) {
            Some(kind) => Err(kind),
            None => Ok(form),
        }
    }

    // What the line commands.
    fn read(&self, objects: &mut ObjectReader, line: &[u8]) -> Result<Command, LineFault>
        ensures ok { IfOk result (λ c. command_in (state_of self.now.level self.now.notes) line.now ≡ Ok c) }
        ensures ranges { IfOk result (IsCommandInRange (length self.now.level.places)) }
        ensures err { IfErr result (λ f. IsFaultOf (state_of self.now.level self.now.notes) line.now f.kind f.found) }
    {
        match self.words(line) {
            Ok(form) => read_command(objects, form),
            Err(kind) => Err(LineFault::from(kind)),
        }
    }

    // Reads what the log gained, and does what follows. Tells how many events these are, which stand in `room`.
    fn follow(&mut self) -> usize
        ensures inside { result ≤ length self.new.room.items }
        ensures events { AreNewEvents self.old.level self.old.notes.seen (take result self.new.room.items) self.new.notes.seen }
        ensures follows { FollowsAll (take result self.new.room.items) (record (state_of self.old.level self.old.notes) { seen = self.new.notes.seen }) (state_of self.new.level self.new.notes) }
        ensures same { (self.new.config ≡ self.old.config) × (self.new.name ≡ self.old.name) × (length self.new.level.places ≡ length self.old.level.places) }
    {
        self.level.has_a_history();
        let room = self.room.as_mut_slice();
        let copied = self.level.copy_events(self.notes.seen, room);
        let count = copied.count.min(self.room.len());
        self.notes.seen = copied.from.saturating_add(count as u64);
        follow_all(&mut self.level, &mut self.notes, &self.room[..count]);
        count
    }

    // Answers a command that changed something, and tells who left a queue since.
    fn tell<W: Write>(
        &mut self,
        line: u64,
        reply: Result<Told, Refusal>,
        out: &mut W,
    ) -> io::Result<()>
        ensures same { (self.new.config ≡ self.old.config) × (self.new.name ≡ self.old.name) × (length self.new.level.places ≡ length self.old.level.places) }
        ensures told { Tells line reply (state_of self.old.level self.old.notes) (WritesIfOk result (W.contents out.old) (W.contents out.new)) (state_of self.new.level self.new.notes) }
    {
        let count = self.follow();
        write_told(out, line, reply, &self.room[..count])
    }

    /// Writes the book: four lines.
    ///
    /// # Errors
    ///
    /// The writer's. Then nothing is known of how much was written.
    pub fn write_book<W: Write>(&mut self, out: &mut W) -> io::Result<()>
        ensures same { (self.new.config ≡ self.old.config) × (self.new.name ≡ self.old.name) × (length self.new.level.places ≡ length self.old.level.places) }
        ensures told { TellsBook (state_of self.old.level self.old.notes) (WritesIfOk result (W.contents out.old) (W.contents out.new)) (state_of self.new.level self.new.notes) }
    {
        let word = self.level.look();
        self.level.has_a_history();
        let stats = self.level.stats();
        let Tally {
            counts,
            waiting,
            running: _,
            seats,
        } = self.notes.tally;
        let totals = Totals {
            closed: word.closed(),
            seats,
            waiters: waiting,
            counts,
            undecided: u64::from(waiting),
            entered: stats.entered,
            dispatched: stats.dispatched,
            struck: stats.struck,
        };
        totals.write(out)
    }

    // Writes the numbers for Prometheus.
    fn write_metrics<W: Write>(&mut self, out: &mut W) -> io::Result<()>
        ensures same { (self.new.config ≡ self.old.config) × (self.new.name ≡ self.old.name) × (length self.new.level.places ≡ length self.old.level.places) }
        ensures told { TellsMetrics (string_bytes self.old.name) (state_of self.old.level self.old.notes) (WritesIfOk result (W.contents out.old) (W.contents out.new)) (state_of self.new.level self.new.notes) }
    {
        let word = self.level.look();
        write_metrics(out, self.name.as_str(), word.limit(), self.notes.tally)
    }

    // Carries out what the line of this number commands.
    fn obey<W: Write>(&mut self, line: u64, command: Command, out: &mut W) -> io::Result<()>
        requires range { IsCommandInRange (length self.old.level.places) command }
        ensures same { (self.new.config ≡ self.old.config) × (self.new.name ≡ self.old.name) × (length self.new.level.places ≡ length self.old.level.places) }
        ensures told { Obeys (string_bytes self.old.name) line command (state_of self.old.level self.old.notes) (WritesIfOk result (W.contents out.old) (W.contents out.new)) (state_of self.new.level self.new.notes) }
    {
        let reply = match command {
            Command::Arrive(slot, arrival) => {
                arrive(&mut self.level, &mut self.notes, slot, arrival)
            }
            Command::Try(slot, arrival) => {
                attempt(&mut self.level, &mut self.notes, slot, arrival)
            }
            Command::Finish(slot, ran) => finish(&mut self.level, &mut self.notes, slot, ran),
            Command::Spent(slot, ran) => spend(&mut self.level, &mut self.notes, slot, ran),
            Command::Cancel(slot) => cancel(&mut self.level, &self.notes, slot),
            Command::Limit(limit) => set_limit(&mut self.level, &self.notes, limit),
            Command::Close => close(&mut self.level, &self.notes),
            Command::Book => return self.write_book(out),
            Command::Queues => return write_queues(out, self.notes.queues.as_slice()),
            Command::Metrics => return self.write_metrics(out),
        };
        self.tell(line, reply, out)
    }

    /// Takes the line of this number, whose bytes come without its LF: carries it out and writes the answer, or writes
    /// its fault, by which nothing changes. Behind the answer of a command stands a line for each request that it took
    /// out of a queue, in the order in which that happened.
    ///
    /// # Errors
    ///
    /// The writer's. Then nothing is known of how much was written; the line was carried out.
    pub fn take_line<W: Write>(
        &mut self,
        objects: &mut ObjectReader,
        number: u64,
        line: &[u8],
        out: &mut W,
    ) -> io::Result<()>
        ensures same { (self.new.config ≡ self.old.config) × (self.new.name ≡ self.old.name) × (length self.new.level.places ≡ length self.old.level.places) }
        ensures served { Serves (string_bytes self.old.name) number line.now (state_of self.old.level self.old.notes) (WritesIfOk result (W.contents out.old) (W.contents out.new)) (state_of self.new.level self.new.notes) }
    {
        match self.read(objects, line) {
            Ok(command) => self.obey(number, command, out),
            Err(fault) => fault.write(out, number),
        }
    }
}
