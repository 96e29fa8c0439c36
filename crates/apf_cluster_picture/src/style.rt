//! The colours. A dark page has others.

ghost use Rattle.std.specs.Prelude.{OnOk};
ghost use Rattle.std.specs.Io.KnownBytes.{Appends};
ghost use Rattle.apf_cluster_picture.specs.Styles.{letters_style, marks_style, dark_style, style_text};

use std::io;
use std::io::Write;

const LETTERS: &[u8] = b"<style>\n\
    text{font:12px system-ui,-apple-system,\"Segoe UI\",sans-serif;fill:#1f2328}\n\
    .head{font-size:17px;font-weight:600}\n\
    .part{font-size:13px;font-weight:600}\n\
    .note{font-size:12px;fill:#59636e;font-weight:400}\n\
    .small{font-size:10px;fill:#59636e}\n";

const MARKS: &[u8] = b".page{fill:#fff}\n\
    .plot{fill:#8a9099;fill-opacity:.12}\n\
    .line{stroke:#8a9099;stroke-opacity:.25}\n\
    .seats{fill:#3267b2}\n\
    .waiting{fill:#b07d00}\n\
    .limit{stroke:#1f2328;stroke-dasharray:6 4}\n\
    .rejected{stroke:#d1242f;stroke-width:1.5}\n\
    .line,.limit,.rejected{fill:none}\n";

const DARK: &[u8] = b"@media(prefers-color-scheme:dark){\n\
    text{fill:#e6edf3}\n\
    .note,.small{fill:#9198a1}\n\
    .page{fill:#0d1117}\n\
    .seats{fill:#6c9fe8}\n\
    .waiting{fill:#e3b341}\n\
    .limit{stroke:#e6edf3}\n\
    .rejected{stroke:#ff6a69}\n\
    }\n\
    </style>\n";

#[tactic(auto, unfolding(crate::specs::Styles::letters_style))]
fn write_letters<W: Write>(out: &mut W) -> io::Result<()>
    ensures { OnOk result (Appends (W.contents out.old) (W.contents out.new) letters_style) }
{
    out.write_all(LETTERS)
}

#[tactic(auto, unfolding(crate::specs::Styles::marks_style))]
fn write_marks<W: Write>(out: &mut W) -> io::Result<()>
    ensures { OnOk result (Appends (W.contents out.old) (W.contents out.new) marks_style) }
{
    out.write_all(MARKS)
}

#[tactic(auto, unfolding(crate::specs::Styles::dark_style))]
fn write_dark<W: Write>(out: &mut W) -> io::Result<()>
    ensures { OnOk result (Appends (W.contents out.old) (W.contents out.new) dark_style) }
{
    out.write_all(DARK)
}

/// Writes all colours.
#[tactic(auto, unfolding(crate::specs::Styles::style_text))]
pub(crate) fn write_style<W: Write>(out: &mut W) -> io::Result<()>
    ensures { OnOk result (Appends (W.contents out.old) (W.contents out.new) style_text) }
{
    write_letters(out)?;
    write_marks(out)?;
    write_dark(out)
}
