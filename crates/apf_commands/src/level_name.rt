//! The name of a level, by which metrics call it.

ghost use Rattle.std.specs.Prelude.{◌≡◌};
ghost use Rattle.std.specs.List.{list_all};
ghost use Rattle.apf_commands.specs.LevelName.{is_name_byte, is_level_name};

/// The most bytes of a level's name.
const MOST: usize = 253;

fn are_name_bytes(bytes: &[u8]) -> bool
    ensures { result ≡ list_all is_name_byte bytes.now }
{
    bytes.iter().all(|byte| matches!(byte, b'a'..=b'z' | b'0'..=b'9' | b'.' | b'-'))
}

/// Whether a level may have this name: 1 to 253 bytes of `a-z`, `0-9`, `.` and `-`.
pub(crate) fn is_level_name(name: &str) -> bool
    ensures { result ≡ is_level_name name.now }
{
    !name.is_empty() && name.len() <= MOST && are_name_bytes(name.as_bytes())
}
