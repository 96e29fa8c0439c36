//! The picture of a cluster, or of two side by side.

use crate::faults::Fault;
use crate::files::{Cause, Files, WriteFault, shown};
use apf_cluster::BothTables;
use apf_cluster_picture::{LevelStrip, write_picture};
use apf_cluster_tables::{LevelTable, Side, level_named};
use apf_objects::Level;
use apf_strips::{MOST_DOUBLINGS, Strip};
use std::alloc::{AllocError, Global};
use std::io::Write;

/// The most levels that are drawn, which is more than two clusters have.
const MOST_LEVELS: usize = 1_000;

// How many times the longest bins of these levels became twice as long.
fn doublings_of(tables: &[LevelTable]) -> u32 {
    let mut most = 0;
    for table in tables {
        if let Some(strip) = &table.strip {
            most = strip.doublings().max(most);
        }
    }
    most
}

// Makes the bins of this level as long.
fn widen(table: &mut LevelTable, doublings: u32) {
    if let Some(strip) = &mut table.strip {
        strip.widen_to(doublings.min(MOST_DOUBLINGS));
    }
}

// Makes the bins of all these levels as long.
fn widen_all(tables: &mut Vec<LevelTable>, doublings: u32) {
    for place in 0..tables.len() {
        widen(&mut tables[place], doublings);
    }
}

// When the last request of these levels was over.
fn last_of(tables: &[LevelTable]) -> u64 {
    let mut last = 0;
    for table in tables {
        last = table.last.max(last);
    }
    last
}

// The strip of the level of this name; of a level that is not there it is empty.
fn strip_of<'a>(side: Side<'a>, name: &str, empty: &'a Strip) -> &'a Strip {
    let Some(place) = level_named(side.levels, name) else {
        return empty;
    };
    match side.tables.get(place) {
        Some(table) => match &table.strip {
            Some(strip) => strip,
            None => empty,
        },
        None => empty,
    }
}

// What is drawn of this level.
fn drawn_of<'a>(
    level: &'a Level,
    first: Side<'a>,
    second: Option<Side<'a>>,
    empty: &'a Strip,
) -> LevelStrip<'a> {
    let name = level.name.as_str();
    let second = match second {
        Some(second) => Some(strip_of(second, name, empty)),
        None => None,
    };
    LevelStrip {
        name,
        is_exempt: level.settings.is_exempt,
        first: strip_of(first, name, empty),
        second,
    }
}

// What is drawn of each level: of those of the first cluster, and of those that only the second one has.
fn all_drawn<'a>(
    alloc: Global,
    first: Side<'a>,
    second: Option<Side<'a>>,
    empty: &'a Strip,
) -> Result<Vec<LevelStrip<'a>>, AllocError> {
    let mut drawn = Vec::new(alloc);
    for level in first.levels {
        drawn.push(drawn_of(level, first, second, empty))?;
    }
    let Some(other) = second else {
        return Ok(drawn);
    };
    for level in other.levels {
        if level_named(first.levels, level.name.as_str()).is_none() {
            drawn.push(drawn_of(level, first, second, empty))?;
        }
    }
    Ok(drawn)
}

// Why the picture of this name was not written.
fn unwritten(alloc: Global, name: &str, cause: Cause) -> Fault {
    let name = match shown(alloc, name) {
        Ok(name) => name,
        Err(fault) => return fault,
    };
    let why = match cause {
        Cause::Absent => "there is no such folder",
        Cause::NotAllowed => "writing it is not allowed",
        Cause::Folder => "it is a folder",
        Cause::Other => "the system can't write it",
    };
    match format!(in alloc; "apf: cannot write picture: {name}: {why}\n") {
        Ok(line) => Fault::Told(line.into_bytes()),
        Err(_) => Fault::NoMemory,
    }
}

// The picture of these levels, until this time.
fn bytes_of(
    alloc: Global,
    first: Side<'_>,
    second: Option<Side<'_>>,
    end: u64,
) -> Result<Vec<u8>, Fault> {
    let empty = Strip::new(alloc)?;
    let drawn = all_drawn(alloc, first, second, &empty)?;
    let few = drawn.len().min(MOST_LEVELS);
    let mut picture = Vec::new(alloc);
    match write_picture(&mut picture, &drawn.as_slice()[..few], end) {
        Ok(()) => Ok(picture),
        Err(_) => Err(Fault::NoMemory),
    }
}

/// A picture, and the name of the file that is to have it.
#[derive(Drop)]
pub(crate) struct PictureFile<'a> {
    name: &'a str,
    bytes: Vec<u8>,
}

/// The picture of these levels for the file of this name, if there is one.
///
/// # Errors
///
/// `NoMemory`.
pub(crate) fn picture_of<'a>(
    alloc: Global,
    name: Option<&'a str>,
    levels: &[Level],
    tables: &mut Vec<LevelTable>,
) -> Result<Option<PictureFile<'a>>, Fault> {
    let Some(name) = name else {
        return Ok(None);
    };
    let doublings = doublings_of(tables.as_slice());
    widen_all(tables, doublings);
    let side = Side {
        levels,
        tables: tables.as_slice(),
    };
    let bytes = bytes_of(alloc, side, None, last_of(side.tables))?;
    Ok(Some(PictureFile { name, bytes }))
}

/// The picture of the levels of both clusters for the file of this name, if there is one.
///
/// # Errors
///
/// `NoMemory`.
pub(crate) fn picture_of_both<'a>(
    alloc: Global,
    name: Option<&'a str>,
    levels: (&[Level], &[Level]),
    both: &mut BothTables,
) -> Result<Option<PictureFile<'a>>, Fault> {
    let Some(name) = name else {
        return Ok(None);
    };
    let doublings = doublings_of(both.first.as_slice()).max(doublings_of(both.second.as_slice()));
    widen_all(&mut both.first, doublings);
    widen_all(&mut both.second, doublings);
    let one = Side {
        levels: levels.0,
        tables: both.first.as_slice(),
    };
    let other = Side {
        levels: levels.1,
        tables: both.second.as_slice(),
    };
    let end = last_of(one.tables).max(last_of(other.tables));
    let bytes = bytes_of(alloc, one, Some(other), end)?;
    Ok(Some(PictureFile { name, bytes }))
}

/// Writes the picture into its file, if there is one, behind all that is printed.
///
/// # Errors
///
/// The output's or the file's, or `NoMemory`. What is printed stays.
pub(crate) fn save<F: Files, O: Write>(
    alloc: Global,
    files: &mut F,
    out: &mut O,
    picture: Option<PictureFile<'_>>,
) -> Result<(), Fault> {
    let Some(picture) = picture else {
        return Ok(());
    };
    if out.flush().is_err() {
        return Err(Fault::CannotWrite);
    }
    match files.write(picture.name, picture.bytes.as_slice()) {
        Ok(()) => Ok(()),
        Err(WriteFault::CannotWrite(cause)) => Err(unwritten(alloc, picture.name, cause)),
        Err(WriteFault::NoMemory) => Err(Fault::NoMemory),
    }
}
