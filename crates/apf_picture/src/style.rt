//! The colours. A dark page has others.

ghost use Rattle.std.specs.Prelude.{OnOk};
ghost use Rattle.std.specs.Io.KnownBytes.{Appends};
ghost use Rattle.apf_picture.specs.Styles.{letters_style, marks_style, rows_style, dark_marks_style, dark_rows_style, style_text};

use std::io;
use std::io::Write;

// The letters.
const LETTERS: &[u8] = b"<style>\n\
text{font:12px system-ui,-apple-system,\"Segoe UI\",sans-serif;fill:#1f2328}\n\
.head{font-size:17px;font-weight:600}\n\
.part{font-size:13px;font-weight:600}\n\
.note{fill:#59636e;font-weight:400}\n\
.small{font-size:10px;fill:#59636e}\n";

// What is drawn in one colour.
const MARKS: &[u8] = b".page{fill:#fff}\n\
.plot{fill:#8a9099;fill-opacity:.12}\n\
.line{stroke:#8a9099;stroke-opacity:.25}\n\
.limit{stroke:#1f2328;stroke-dasharray:6 4}\n\
.peak{stroke:#1f2328}\n\
.shade{stroke:#33497a;stroke-width:9}\n\
.rejected{stroke:#d1242f;stroke-width:1.5}\n\
.gave-up{fill:#b07d00}\n\
.line,.limit,.peak,.shade,.bars,.rejected{fill:none}\n";

// The colours of the rows, each of another lightness.
const ROWS: &[u8] = b".f0{fill:#b55821}.b0{stroke:#b55821}\n\
.f1{fill:#461c75}.b1{stroke:#461c75}\n\
.f2{fill:#0ca3b6}.b2{stroke:#0ca3b6}\n\
.f3{fill:#951d70}.b3{stroke:#951d70}\n\
.f4{fill:#420936}.b4{stroke:#420936}\n\
.f5{fill:#456539}.b5{stroke:#456539}\n\
.f6{fill:#00128f}.b6{stroke:#00128f}\n\
.f7{fill:#3267b2}.b7{stroke:#3267b2}\n\
.f8{fill:#791909}.b8{stroke:#791909}\n\
.f9{fill:#ab69ee}.b9{stroke:#ab69ee}\n\
.f10{fill:#623d45}.b10{stroke:#623d45}\n\
.f11{fill:#171c08}.b11{stroke:#171c08}\n\
.f12{fill:#7d7d7d}.b12{stroke:#7d7d7d}\n";

// The same on a dark page.
const DARK_MARKS: &[u8] = b"@media(prefers-color-scheme:dark){\n\
text{fill:#e6edf3}\n\
.note,.small{fill:#9198a1}\n\
.page{fill:#0d1117}\n\
.limit,.peak{stroke:#e6edf3}\n\
.shade{stroke:#a6c0f5}\n\
.rejected{stroke:#ff6a69}\n\
.gave-up{fill:#e3b341}\n";

// The same on a dark page.
const DARK_ROWS: &[u8] = b".f0{fill:#fd8867}.b0{stroke:#fd8867}\n\
.f1{fill:#7c4dab}.b1{stroke:#7c4dab}\n\
.f2{fill:#e3ce5d}.b2{stroke:#e3ce5d}\n\
.f3{fill:#0492a9}.b3{stroke:#0492a9}\n\
.f4{fill:#d6e9fd}.b4{stroke:#d6e9fd}\n\
.f5{fill:#a07fe4}.b5{stroke:#a07fe4}\n\
.f6{fill:#f7a3ff}.b6{stroke:#f7a3ff}\n\
.f7{fill:#b0541d}.b7{stroke:#b0541d}\n\
.f8{fill:#8df097}.b8{stroke:#8df097}\n\
.f9{fill:#b89a2c}.b9{stroke:#b89a2c}\n\
.f10{fill:#fdf2e4}.b10{stroke:#fdf2e4}\n\
.f11{fill:#d14c54}.b11{stroke:#d14c54}\n\
.f12{fill:#b5b5b5}.b12{stroke:#b5b5b5}\n\
}\n\
</style>\n";

#[tactic(auto, unfolding(crate::specs::Styles::letters_style))]
fn write_letters<W: Write>(out: &mut W) -> io::Result<()>
    ensures { OnOk result (Appends (W.contents out.old) (W.contents out.new) letters_style) }
{
    out.write_all(LETTERS)
}

#[tactic(auto, unfolding(crate::specs::Styles::marks_style))]
fn write_marks<W: Write>(out: &mut W) -> io::Result<()>
    ensures { OnOk result (Appends (W.contents out.old) (W.contents out.new) marks_style) }
{
    out.write_all(MARKS)
}

#[tactic(auto, unfolding(crate::specs::Styles::rows_style))]
fn write_rows<W: Write>(out: &mut W) -> io::Result<()>
    ensures { OnOk result (Appends (W.contents out.old) (W.contents out.new) rows_style) }
{
    out.write_all(ROWS)
}

#[tactic(auto, unfolding(crate::specs::Styles::dark_marks_style))]
fn write_dark_marks<W: Write>(out: &mut W) -> io::Result<()>
    ensures { OnOk result (Appends (W.contents out.old) (W.contents out.new) dark_marks_style) }
{
    out.write_all(DARK_MARKS)
}

#[tactic(auto, unfolding(crate::specs::Styles::dark_rows_style))]
fn write_dark_rows<W: Write>(out: &mut W) -> io::Result<()>
    ensures { OnOk result (Appends (W.contents out.old) (W.contents out.new) dark_rows_style) }
{
    out.write_all(DARK_ROWS)
}

/// Writes all colours.
#[tactic(auto, unfolding(crate::specs::Styles::style_text))]
pub(crate) fn write_style<W: Write>(out: &mut W) -> io::Result<()>
    ensures { OnOk result (Appends (W.contents out.old) (W.contents out.new) style_text) }
{
    write_letters(out)?;
    write_marks(out)?;
    write_rows(out)?;
    write_dark_marks(out)?;
    write_dark_rows(out)
}
