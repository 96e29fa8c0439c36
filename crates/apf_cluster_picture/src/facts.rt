//! The numbers of a strip in words.

ghost use Rattle.std.specs.Prelude.{◌≡◌, OnOk};
ghost use Rattle.std.specs.List.{flat_map};
ghost use Rattle.std.specs.Str.{chars};
ghost use Rattle.std.specs.Io.KnownBytes.{Appends};
ghost use Rattle.apf_picture.specs.Names.{character_text};
ghost use Rattle.apf_cluster_picture.specs.Facts.{name_text, side_text, limit_words, no_limit, at_most_limit, seats_words, waiting_words, rejected_words, facts_text, named_text};

use crate::means::{peak, write_mean};
use apf_picture::write_character;
use apf_strips::{Series, Strip};
use std::io;
use std::io::Write;

/// Which of the strips of a level it is.
#[derive(Clone, Copy)]
pub(crate) enum Side {
    /// There is one cluster.
    Alone,
    /// That of the first cluster of two.
    First,
    /// That of the second cluster.
    Second,
}

// Writes a name, as XML has it.
fn write_name<W: Write>(out: &mut W, name: &str) -> io::Result<()>
    ensures { OnOk result (Appends (W.contents out.old) (W.contents out.new) (name_text name.now)) }
{
    for character in name.chars() {
        write_character(out, character)?;
    }
    Ok(())
}

// Writes of which cluster it is, where there are two.
fn write_side<W: Write>(out: &mut W, side: Side) -> io::Result<()>
    ensures { OnOk result (Appends (W.contents out.old) (W.contents out.new) (side_text side)) }
{
    match side {
        Side::Alone => Ok(()),
        Side::First => out.write_all(b", first cluster"),
        Side::Second => out.write_all(b", second cluster"),
    }
}

/// Writes the name of a level, and of which cluster it is.
#[tactic(auto, unfolding(crate::specs::Facts::named_text))]
pub(crate) fn write_named<W: Write>(out: &mut W, name: &str, side: Side) -> io::Result<()>
    ensures { OnOk result (Appends (W.contents out.old) (W.contents out.new) (named_text name.now side)) }
{
    write_name(out, name)?;
    write_side(out, side)
}

#[tactic(auto, unfolding(crate::specs::Facts::seats_words))]
fn write_seats<W: Write>(out: &mut W, seats: &Series) -> io::Result<()>
    ensures { OnOk result (Appends (W.contents out.old) (W.contents out.new) (seats_words seats.now)) }
{
    out.write_all(b"seats in use at most ")?;
    write_mean(out, peak(seats))
}

#[tactic(auto, unfolding(crate::specs::Facts::at_most_limit))]
fn write_at_most_limit<W: Write>(out: &mut W, limit: &Series) -> io::Result<()>
    ensures { OnOk result (Appends (W.contents out.old) (W.contents out.new) (at_most_limit limit.now)) }
{
    out.write_all(b", limit at most ")?;
    write_mean(out, peak(limit))
}

// Writes the greatest limit, if the level has one.
#[tactic(auto, unfolding(crate::specs::Facts::no_limit))]
fn write_limit<W: Write>(out: &mut W, is_exempt: bool, limit: &Series) -> io::Result<()>
    ensures { OnOk result (Appends (W.contents out.old) (W.contents out.new) (limit_words is_exempt limit.now)) }
{
    if is_exempt {
        return out.write_all(b", no limit");
    }
    write_at_most_limit(out, limit)
}

#[tactic(auto, unfolding(crate::specs::Facts::waiting_words))]
fn write_waiting<W: Write>(out: &mut W, waiting: &Series) -> io::Result<()>
    ensures { OnOk result (Appends (W.contents out.old) (W.contents out.new) (waiting_words waiting.now)) }
{
    out.write_all(b", waiting at most ")?;
    write_mean(out, peak(waiting))
}

#[tactic(auto, unfolding(crate::specs::Facts::rejected_words))]
fn write_rejected<W: Write>(out: &mut W, rejected: u128) -> io::Result<()>
    ensures { OnOk result (Appends (W.contents out.old) (W.contents out.new) (rejected_words rejected)) }
{
    write!(out, ", {rejected} rejected")
}

/// Writes the greatest means of a strip, and how many were rejected.
#[tactic(auto, unfolding(crate::specs::Facts::facts_text))]
pub(crate) fn write_facts<W: Write>(out: &mut W, is_exempt: bool, strip: &Strip) -> io::Result<()>
    ensures { OnOk result (Appends (W.contents out.old) (W.contents out.new) (facts_text is_exempt strip.now)) }
{
    write_seats(out, &strip.seats)?;
    write_limit(out, is_exempt, &strip.limit)?;
    write_waiting(out, &strip.waiting)?;
    write_rejected(out, strip.rejected.total())
}
