//! The config file: the settings of a priority level, as one JSON object.

ghost use Rattle.std.specs.Prelude.{◌≡◌, ◌≢◌, ◌<◌, ◌≤◌, IfOk, IfErr, IfSome, Ok, Err, Some, None, option_and_then, length};
ghost use Rattle.serde_json.specs.Find.{as_str};
ghost use Rattle.serde_json.specs.View.{view, members_view};
ghost use Rattle.apf_files.specs.JsonFile.{all_known, judged, value_in};
ghost use Rattle.apf_files.specs.ConfigFile.{config_of, number_at as number_at_key, response_at as response_at_key, is_key, name_of, config_fault_number, response_named, IsConfigOf, IsConfigInRange};

use crate::json::{Parsed, parse, whole_number};
use apf_model::{Config, Response};
use apf_words::{MAX_LIMIT, MAX_QUEUE_LENGTH, MAX_QUEUES};
use serde_json::{Map, Value};
use std::alloc::{AllocError, Global};
use std::fmt;
use thiserror::Error;

/// A key of a config file.
#[derive(Clone, Copy, Debug, PartialEq, Eq)]
pub enum ConfigKey {
    /// The seats of the level, 1 to 10,000, which has to be there.
    Limit,
    /// The number of queues, 1 to 1,024; 64 if absent.
    Queues,
    /// The queues dealt to one flow, 1 to 15; 8 if absent.
    HandSize,
    /// The requests that may wait in one queue, 1 to 10,000; 50 if absent.
    QueueLengthLimit,
    /// `"Queue"` or `"Reject"`: what becomes of an arrival that does not fit; `"Queue"` if absent.
    LimitResponse,
}

/// Why a config file was refused: the first fault, in the order of the numbers, and of bad values the first key's.
#[derive(Clone, Copy, Debug, PartialEq, Eq, Error)]
pub enum ConfigFault {
    /// 1: the bytes are no JSON text in UTF-8.
    #[error("not JSON")]
    NotJson,
    /// 2: the value is no object.
    #[error("not an object")]
    NotObject,
    /// 3: the object has a key that is no `ConfigKey`.
    #[error("unknown key")]
    UnknownKey,
    /// 4: the key `limit` is absent.
    #[error("limit missing")]
    Missing,
    /// 5: the key's value is not a whole number in its range, or is neither of the two responses.
    #[error("bad value of {0}")]
    BadValue(ConfigKey),
    /// 6: memory was refused.
    #[error("out of memory")]
    NoMemory,
}

const DEFAULT_QUEUES: u32 = 64;

/// The most queues of a hand.
pub const MAX_HAND_SIZE: u32 = 15;

const DEFAULT_HAND_SIZE: u32 = 8;

const DEFAULT_QUEUE_LENGTH_LIMIT: u32 = 50;

impl ConfigKey {
    /// The key's name in a file.
    pub fn name(self) -> &'static str
        ensures { result.now ≡ name_of self }
    {
        match self {
            ConfigKey::Limit => "limit",
            ConfigKey::Queues => "queues",
            ConfigKey::HandSize => "handSize",
            ConfigKey::QueueLengthLimit => "queueLengthLimit",
            ConfigKey::LimitResponse => "limitResponse",
        }
    }
}

impl fmt::Display for ConfigKey {
    fn fmt<W: fmt::Write>(&self, f: &mut fmt::Formatter<W>) -> fmt::Result {
        f.write_str(self.name())
    }
}

impl ConfigFault {
    /// The fault's number, 1 to 6.
    pub fn number(&self) -> u8
        ensures { result ≡ config_fault_number self.now }
    {
        match self {
            ConfigFault::NotJson => 1,
            ConfigFault::NotObject => 2,
            ConfigFault::UnknownKey => 3,
            ConfigFault::Missing => 4,
            ConfigFault::BadValue(_) => 5,
            ConfigFault::NoMemory => 6,
        }
    }
}

/// Whether a config file may have a key of this name.
#[tactic(auto, unfolding(crate::specs::ConfigFile::is_key))]
pub fn is_config_key(name: &str) -> bool
    ensures { result ≡ is_key name.now }
{
    name == "limit"
        || name == "queues"
        || name == "handSize"
        || name == "queueLengthLimit"
        || name == "limitResponse"
}

fn has_config_keys(members: &Map<String, Value>) -> bool
    ensures { result ≡ all_known is_key (members_view members.now.entries) }
{
    members.keys().all(|name| is_config_key(name.as_str()))
}

// The number at `key`, 1 to `most`; with no default the key has to be there.
#[tactic(auto, unfolding(crate::specs::ConfigFile::number_at))]
fn number_at(
    value: &Value,
    key: ConfigKey,
    most: u32,
    default: Option<u32>,
) -> Result<u32, ConfigFault>
    requires { IfSome default (λ n. (1 ≤ n) × (n ≤ most)) }
    ensures value { result ≡ number_at_key key most default (view value.now) }
    ensures within { IfOk result (λ n. (1 ≤ n) × (n ≤ most)) }
{
    match value.get(key.name()) {
        Some(member) => whole_number(member, 1, most).ok_or(ConfigFault::BadValue(key)),
        None => default.ok_or(ConfigFault::Missing),
    }
}

fn named_response(value: &Value) -> Option<Response>
    ensures { result ≡ option_and_then response_named (as_str (view value.now)) }
{
    match value.as_str()? {
        "Queue" => Some(Response::Queue),
        "Reject" => Some(Response::Reject),
        _ => None,
    }
}

#[tactic(auto, unfolding(crate::specs::ConfigFile::response_at))]
fn response_at(value: &Value, default: Response) -> Result<Response, ConfigFault>
    ensures { result ≡ response_at_key default (view value.now) }
{
    let key = ConfigKey::LimitResponse;
    match value.get(key.name()) {
        Some(member) => named_response(member).ok_or(ConfigFault::BadValue(key)),
        None => Ok(default),
    }
}

#[tactic(auto, unfolding(crate::specs::ConfigFile::config_of))]
fn config_of_value(value: &Value) -> Result<Config, ConfigFault>
    ensures value { result ≡ config_of (view value.now) }
    ensures ranges { IfOk result IsConfigInRange }
{
    let Some(members) = value.as_object() else {
        return Err(ConfigFault::NotObject);
    };
    if !has_config_keys(members) {
        return Err(ConfigFault::UnknownKey);
    }
    let limit = number_at(value, ConfigKey::Limit, MAX_LIMIT, None)?;
    let queues = number_at(value, ConfigKey::Queues, MAX_QUEUES, Some(DEFAULT_QUEUES))?;
    let hand_size = number_at(
        value,
        ConfigKey::HandSize,
        MAX_HAND_SIZE,
        Some(DEFAULT_HAND_SIZE),
    )?;
    let queue_length_limit = number_at(
        value,
        ConfigKey::QueueLengthLimit,
        MAX_QUEUE_LENGTH,
        Some(DEFAULT_QUEUE_LENGTH_LIMIT),
    )?;
    let limit_response = response_at(value, Response::Queue)?;
    Ok(Config {
        limit,
        queues,
        hand_size,
        queue_length_limit,
        limit_response,
    })
}

/// The config that a file is, which was parsed as this: one JSON object in UTF-8 with keys of `ConfigKey` alone.
///
/// Numbers are whole numbers, without fraction or exponent. Of a repeated key the last value counts.
///
/// # Errors
///
/// The first fault, in the order of `ConfigFault`, and of bad values that of the first key, in the order of
/// `ConfigKey`; an absent `limit` is told before any bad value.
pub fn judge_config(parsed: &Parsed) -> Result<Config, ConfigFault>
    ensures value { result ≡ judged ConfigFault.NotJson config_of (value_in parsed.now) }
    ensures ranges { IfOk result IsConfigInRange }
    ensures memory { IfErr result (λ fault. fault ≡ ConfigFault.NoMemory → value_in parsed.now ≢ None) }
{
    match parsed {
        Parsed::Value(value) => config_of_value(value),
        Parsed::Stopped(_) => Err(ConfigFault::NotJson),
    }
}

/// Reads a config file: parses it, and judges what it was parsed as.
///
/// # Errors
///
/// As for `judge_config`. `NoMemory` only where memory was refused.
pub fn read_config(alloc: Global, bytes: &[u8]) -> Result<Config, ConfigFault>
    ensures ok { IfOk result (λ config. IsConfigOf bytes.now (Ok config)) }
    ensures ranges { IfOk result IsConfigInRange }
    ensures err { IfErr result (λ fault. fault ≢ ConfigFault.NoMemory → IsConfigOf bytes.now (Err fault)) }
    ensures memory { IfErr result (λ fault. fault ≡ ConfigFault.NoMemory → 0 < length bytes.now) }
{
    match parse(alloc, bytes) {
        Ok(parsed) => judge_config(&parsed),
        Err(AllocError) => Err(ConfigFault::NoMemory),
    }
}
