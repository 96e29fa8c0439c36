//! The whole picture.

ghost use Rattle.std.specs.Prelude.{◌≡◌, ◌<◌, ◌≤◌, ◌+◌, ◌*◌, ◌^◌, length, vec_len, OnOk};
ghost use Rattle.std.specs.Io.KnownBytes.{Appends};

use crate::axis::write_axis;
use crate::columns::{Area, Strip, areas, most_seats, most_waiting, strips};
use crate::cutting::{Cutting, shared_beginning};
use crate::head::{
    write_beginning, write_beginning_line, write_counts, write_facts, write_page, write_schema,
    write_schema_sentence, write_sentences, write_settings, write_size, write_whole,
};
use crate::label::shared_schema;
use crate::life::{lives, seen};
use crate::queues::{high, write_queues};
use crate::rank::{OWN_ROWS, own_flows};
use crate::requests::{height, write_rows};
use crate::row::{Numbers, Row};
use crate::scale::{Unit, step};
use crate::scene::Scene;
use crate::seats::write_seats;
use crate::style::write_style;
use crate::words::write_counted;
use apf_model::{Config, Response};
use std::alloc::{AllocError, Global};
use std::io;
use std::io::Write;

/// A picture of a run, or of a stretch of it.
#[derive(Drop)]
pub struct Picture {
    config: Config,
    patience: u64,
    // The stretch that is drawn: when it begins, how long it is, and whether that is the whole run.
    from: u64,
    long: u64,
    is_whole: bool,
    // The distance of the axis' marks.
    step: u64,
    flows: u32,
    // The schema that all flows share.
    schema: Option<Vec<char>>,
    numbers: Numbers,
    rows: Vec<Row>,
    // What is left out of the names of all rows, at their beginning.
    beginning: Vec<char>,
    cutting: Cutting,
    areas: Vec<Area>,
    strips: Vec<Strip>,
    // The most seats in use.
    used: u64,
    ghost step_is_some: { 0 < step },
    ghost few_marks: { long ≤ step * 10 },
    ghost late: { from + long < 2 ^ 64 },
    ghost few_rows: { vec_len rows ≤ 13 },
    ghost few_strips: { vec_len strips < 2 ^ 31 },
}

// Where the part of the seats begins, and that of the queues.
const SEATS: u64 = 124;

const QUEUES: u64 = 310;

// Where the part of the requests begins if there is no part of queues.
const NO_QUEUES: u64 = 264;

impl Picture {
    ghost use Rattle.std.specs.Prelude.{All, IfOk};
    ghost use Rattle.apf_picture.specs.Pictures.{IsPictureOf, title_text, level_text, description_text, whole_title, title_element, notes_text, below_title, above_text, head_text, below_of, queue_part, parts_text, picture_text};

    /// The picture of a run, or of a stretch of it.
    ///
    /// # Errors
    ///
    /// `AllocError` if memory was refused.
    pub fn of(alloc: Global, scene: &Scene<'_>) -> Result<Picture, AllocError>
        requires few { length scene.now.trace.now ≤ 10000 }
        requires outcomes { length scene.now.outcomes.now ≡ length scene.now.trace.now }
        requires flows { length scene.now.flows.now.of.items ≡ length scene.now.trace.now }
        requires few_flows { length scene.now.flows.now.firsts.items ≤ length scene.now.trace.now }
        requires each { All (λ flow. flow < length scene.now.flows.now.firsts.items) scene.now.flows.now.of.items }
        requires firsts { All (λ first. first < length scene.now.trace.now) scene.now.flows.now.firsts.items }
        ensures { IfOk result (IsPictureOf scene.now) }
    {
        let firsts = scene.flows.firsts.as_slice();
        let of = scene.flows.of.as_slice();
        let flows = firsts.len() as u32;
        let own = own_flows(alloc, scene.outcomes, of, flows)?;
        let rows_of = crate::rank::rows(alloc, own.as_slice(), flows)?;
        let long = scene.end.saturating_sub(scene.from);
        let lives = lives(alloc, scene.trace, scene.outcomes, of, rows_of.as_slice())?;
        let lives = seen(alloc, lives.as_slice(), scene.from, long)?;
        let schema = shared_schema(alloc, scene.trace, firsts)?;
        let rows = crate::row::rows(
            alloc,
            scene.trace,
            firsts,
            own.as_slice(),
            schema.is_some(),
            lives.as_slice(),
        )?;
        let beginning = shared_beginning(alloc, rows.as_slice())?;
        let cutting = Cutting::of(alloc, rows.as_slice(), beginning.len())?;
        Ok(Picture {
            config: scene.config,
            patience: scene.patience,
            from: scene.from,
            long,
            is_whole: scene.is_whole,
            step: step(long, Unit::of(long).length()),
            flows,
            schema,
            numbers: Numbers::of(lives.as_slice()),
            rows,
            beginning,
            cutting,
            areas: areas(alloc, lives.as_slice(), flows.min(OWN_ROWS + 1), long)?,
            strips: strips(alloc, lives.as_slice(), long)?,
            used: most_seats(alloc, lives.as_slice())?,
        })
    }

    // Writes what the picture shows, in a few words.
    #[tactic(auto, unfolding(crate::specs::Pictures::title_text))]
    fn write_title<W: Write>(&self, out: &mut W) -> io::Result<()>
        ensures { OnOk result (Appends (W.contents out.old) (W.contents out.new) (title_text self.now)) }
    {
        write_counts(out, u64::from(self.numbers.requests), u64::from(self.flows))?;
        write_schema(out, &self.schema)?;
        out.write_all(b" on ")?;
        write_counted(out, u64::from(self.config.limit), "seat")
    }

    // Writes the numbers of all requests, and the settings of the level.
    #[tactic(auto, unfolding(crate::specs::Pictures::level_text))]
    fn write_level<W: Write>(&self, out: &mut W) -> io::Result<()>
        ensures { OnOk result (Appends (W.contents out.old) (W.contents out.new) (level_text self.now)) }
    {
        out.write_all(b"<desc id=\"desc\">")?;
        write_whole(out, &self.numbers, self.is_whole, self.from, self.long)?;
        out.write_all(b". The level: ")?;
        write_settings(out, &self.config, self.patience)
    }

    // Writes what the picture shows, for who does not see it.
    #[tactic(auto, unfolding(crate::specs::Pictures::description_text))]
    fn write_description<W: Write>(&self, out: &mut W) -> io::Result<()>
        ensures { OnOk result (Appends (W.contents out.old) (W.contents out.new) (description_text self.now)) }
    {
        let longest = most_waiting(self.strips.as_slice());
        self.write_level(out)?;
        write_facts(out, self.used, self.strips.len(), longest)?;
        write_schema_sentence(out, &self.schema)?;
        write_sentences(out, self.rows.as_slice())?;
        out.write_all(b"</desc>\n")
    }

    // Writes the title, and what is left out of the names.
    #[tactic(auto, unfolding(crate::specs::Pictures::whole_title))]
    fn write_whole_title<W: Write>(&self, out: &mut W) -> io::Result<()>
        ensures { OnOk result (Appends (W.contents out.old) (W.contents out.new) (whole_title self.now)) }
    {
        self.write_title(out)?;
        write_beginning(out, self.beginning.as_slice())
    }

    // Writes the title for who does not see the picture.
    #[tactic(auto, unfolding(crate::specs::Pictures::title_element))]
    fn write_title_element<W: Write>(&self, out: &mut W) -> io::Result<()>
        ensures { OnOk result (Appends (W.contents out.old) (W.contents out.new) (title_element self.now)) }
    {
        out.write_all(b"<title id=\"title\">")?;
        self.write_whole_title(out)?;
        out.write_all(b"</title>\n")
    }

    // Writes the title and the two lines below it.
    #[tactic(auto, unfolding(crate::specs::Pictures::notes_text))]
    fn write_notes<W: Write>(&self, out: &mut W) -> io::Result<()>
        ensures { OnOk result (Appends (W.contents out.old) (W.contents out.new) (notes_text self.now)) }
    {
        out.write_all(b"</text>\n<text class=\"note\" x=\"48\" y=\"47\">")?;
        write_whole(out, &self.numbers, self.is_whole, self.from, self.long)?;
        out.write_all(b"</text>\n<text class=\"note\" x=\"48\" y=\"63\">")?;
        write_settings(out, &self.config, self.patience)?;
        out.write_all(b"</text>\n")
    }

    // Writes what stands below the title.
    #[tactic(auto, unfolding(crate::specs::Pictures::below_title))]
    fn write_below_title<W: Write>(&self, out: &mut W) -> io::Result<()>
        ensures { OnOk result (Appends (W.contents out.old) (W.contents out.new) (below_title self.now)) }
    {
        self.write_notes(out)?;
        write_beginning_line(out, self.beginning.as_slice())
    }

    // Writes what stands above the parts.
    #[tactic(auto, unfolding(crate::specs::Pictures::above_text))]
    fn write_above<W: Write>(&self, out: &mut W) -> io::Result<()>
        ensures { OnOk result (Appends (W.contents out.old) (W.contents out.new) (above_text self.now)) }
    {
        out.write_all(b"<text class=\"head\" x=\"48\" y=\"28\">")?;
        self.write_title(out)?;
        self.write_below_title(out)
    }

    // Writes the title, the description, the colours and what stands above the parts.
    #[tactic(auto, unfolding(crate::specs::Pictures::head_text))]
    fn write_head<W: Write>(&self, out: &mut W, height: u64) -> io::Result<()>
        ensures { OnOk result (Appends (W.contents out.old) (W.contents out.new) (head_text self.now height)) }
    {
        write_size(out, height)?;
        self.write_title_element(out)?;
        self.write_description(out)?;
        write_style(out)?;
        write_page(out, height)?;
        self.write_above(out)
    }

    // Where the part of the requests begins. A level that rejects has no part of queues.
    fn below(&self) -> u64
        ensures below { result ≡ below_of self.now }
        ensures within { result ≤ 550 }
    {
        match self.config.limit_response {
            Response::Queue => QUEUES + high(self.strips.as_slice()),
            Response::Reject => NO_QUEUES,
        }
    }

    // Writes the part of the queues, if the level has queues.
    fn write_queue_part<W: Write>(&self, out: &mut W) -> io::Result<()>
        ensures { OnOk result (Appends (W.contents out.old) (W.contents out.new) (queue_part self.now)) }
    {
        match self.config.limit_response {
            Response::Queue => {
                let longest = most_waiting(self.strips.as_slice());
                write_queues(out, self.strips.as_slice(), longest)
            }
            Response::Reject => Ok(()),
        }
    }

    // Writes the parts, of which that of the requests begins at this height, and the axis this many pixels long.
    #[tactic(auto, unfolding(crate::specs::Pictures::parts_text))]
    fn write_parts<W: Write>(&self, out: &mut W, below: u64, depth: u64) -> io::Result<()>
        requires below { below < 2 ^ 40 }
        requires depth { depth < 2 ^ 41 }
        ensures { OnOk result (Appends (W.contents out.old) (W.contents out.new) (parts_text self.now below depth)) }
    {
        write_axis(out, self.from, self.long, self.step, depth)?;
        write_seats(
            out,
            self.areas.as_slice(),
            self.used,
            u64::from(self.config.limit),
        )?;
        self.write_queue_part(out)?;
        write_rows(out, self.rows.as_slice(), self.cutting, below, self.long)
    }

    /// Writes the picture as an SVG.
    ///
    /// # Errors
    ///
    /// The writer's. Then nothing is known of how much was written.
    #[tactic(auto, unfolding(crate::specs::Pictures::picture_text))]
    pub fn write<W: Write>(&self, out: &mut W) -> io::Result<()>
        ensures { OnOk result (Appends (W.contents out.old) (W.contents out.new) (picture_text self.now)) }
    {
        let below = self.below();
        let bottom = below + 44 + height(self.rows.as_slice());
        self.write_head(out, bottom + 28)?;
        self.write_parts(out, below, bottom - SEATS)?;
        out.write_all(b"</svg>\n")
    }
}
