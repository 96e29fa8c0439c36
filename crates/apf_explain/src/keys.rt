//! The keys of an object, and the first one that is unknown.

ghost use Rattle.std.specs.Prelude.{◌≡◌, OnOk, IfSome, option_map, option_and_then, string_bytes};
ghost use Rattle.std.specs.Io.KnownBytes.{Appends};
ghost use Rattle.serde_json.specs.Find.{as_object};
ghost use Rattle.serde_json.specs.View.{view, members_view};
ghost use Rattle.apf_explain.specs.Keys.{is_arrival_key as is_arrival_key_of, is_key_of, key_likeness, likeness_text, may_be_event as may_be_event_of, unknown_in, unknown_of};
ghost use Rattle.apf_explain.specs.Lines.{place_text, unknown_text};

use crate::found::Quoted;
use crate::likeness::is_event;
use crate::place::Place;
use apf_files::{is_config_key, is_request_key};
use apf_traces::is_trace_key;
use serde_json::{Map, Value};
use std::io::Write;
use std::{fmt, io};

/// Whose keys an object has.
#[derive(Clone, Copy, Debug, PartialEq, Eq)]
pub enum Keys {
    /// Of a config.
    OfConfig,
    /// Of a request of a requests file.
    OfRequest,
    /// Of a request of a trace.
    OfTrace,
    /// Of what a level is sent with an arrival.
    OfArrival,
}

impl fmt::Display for Keys {
    ghost use Rattle.std.specs.Prelude.{Some};
    ghost use Rattle.apf_explain.specs.Keys.{keys_text};

    ghost output = { λ keys. Some (keys_text keys) };

    fn fmt<W: fmt::Write>(&self, f: &mut fmt::Formatter<W>) -> fmt::Result {
        f.write_str(match self {
            Keys::OfConfig =>
                "a config has limit, queues, handSize, queueLengthLimit and limitResponse",
            Keys::OfRequest =>
                "a request has schema, distinguisher, hash, width, work, cancels and closes",
            Keys::OfTrace =>
                "a request of a trace has arrivesAt, runsFor, schema, distinguisher, hash, width and cost",
            Keys::OfArrival => "an arrival has schema, distinguisher, hash, width and cost",
        })
    }
}

/// Whether what a level is sent with an arrival may have a key of this name.
#[tactic(auto, unfolding(crate::specs::Keys::is_arrival_key))]
pub fn is_arrival_key(name: &str) -> bool
    ensures { result ≡ is_arrival_key_of name.now }
{
    name == "schema"
        || name == "distinguisher"
        || name == "hash"
        || name == "width"
        || name == "cost"
}

impl Keys {
    /// Whether the name is that of a key.
    pub(crate) fn has(self, name: &str) -> bool
        ensures { result ≡ is_key_of self name.now }
    {
        match self {
            Keys::OfConfig => is_config_key(name),
            Keys::OfRequest => is_request_key(name),
            Keys::OfTrace => is_trace_key(name),
            Keys::OfArrival => is_arrival_key(name),
        }
    }

    // What an object is that is no event, and has such a key in place of these, in words.
    fn key_likeness(self, name: &str) -> &'static str
        ensures { result.now ≡ key_likeness self name.now }
    {
        match self {
            Keys::OfConfig | Keys::OfTrace if name == "apiVersion" || name == "kind" =>
                "this is an object as kubectl prints it: ",
            Keys::OfConfig if name == "arrivesAt" => "this is a request of a trace: ",
            Keys::OfTrace if is_config_key(name) => "this is a config: ",
            _ => "",
        }
    }

    // Whether files of this kind are told from an audit log.
    fn may_be_event(self) -> bool
        ensures { result ≡ may_be_event_of self }
    {
        match self {
            Keys::OfConfig | Keys::OfTrace => true,
            Keys::OfRequest | Keys::OfArrival => false,
        }
    }

    // What the value is that has such a key in place of these, in words.
    fn likeness(self, value: Option<&Value>, name: &str) -> &'static str
        ensures { result.now ≡ likeness_text self (option_map (λ whole. view whole.now) value.entry) name.now }
    {
        if self.may_be_event() && is_event(value) {
            return "this is an event of an audit log: ";
        }
        self.key_likeness(name)
    }

    // The first unknown key of these members, in the order of the keys' bytes.
    fn unknown_of(self, members: &Map<String, Value>) -> Option<&String>
        ensures { option_map (λ name. string_bytes name.now) result ≡ unknown_in (is_key_of self) (members_view members.now.entries) }
    {
        members.keys().find(|name| !self.has(name.as_str()))
    }

    /// The first unknown key of a value that is an object, in the order of the keys' bytes.
    pub(crate) fn unknown(self, value: Option<&Value>) -> Option<&str>
        ensures { option_map (λ name. name.now) result ≡ unknown_of self (option_map (λ whole. view whole.now) value.entry) }
    {
        Some(self.unknown_of(value?.as_object()?)?.as_str())
    }
}

/// Writes that an object has an unknown key.
pub fn write_unknown_key<W: Write>(
    out: &mut W,
    place: Place<'_>,
    keys: Keys,
    value: Option<&Value>,
) -> io::Result<()>
    ensures { OnOk result (IfSome (unknown_text (place_text place.entry.name.now place.entry.part) keys (option_map (λ value. view value.now) value.entry))
        (Appends (W.contents out.old) (W.contents out.new))) }
{
    match keys.unknown(value) {
        Some(text) => {
            let key = Quoted {
                what: "a key",
                text,
            };
            if key.is_whole() {
                let other = keys.likeness(value, text);
                writeln!(out, "{place}the key {key} is unknown: {other}{keys}")
            } else {
                writeln!(out, "{place}{key} is unknown: {keys}")
            }
        }
        None => writeln!(out, "{place}a key is unknown: {keys}"),
    }
}
