//! What a session writes.

ghost use Rattle.std.specs.Prelude.{◌≡◌, ◌++◌, true, OnOk, OnErr};
ghost use Rattle.std.specs.Io.KnownBytes.{Appends};
ghost use Rattle.s3_bureau.specs.Texts.{report_of};
ghost use Rattle.s3_bureau.specs.Inner.Underway.{AreTables};
ghost use Rattle.s3_bureau.specs.Inner.Unwritten.{unwritten_texts};
ghost use Rattle.s3_bureau.specs.Runs.{output_of};

use crate::watched::Sink;
use s3_bureau::{REPORT_ROOM, ReportTables, Unwritten};
use s3_cards::{LevelId, PrintLine};
use std::io;

/// Writes the reports, from the printed lines, and the halt texts of both levels, each under its heading. No report is in memory as a
/// whole.
pub fn write_lines<W: Sink>(
    writer: &mut W,
    tables: &ReportTables,
    unwritten: &Unwritten,
) -> io::Result<()>
    requires { AreTables tables.now }
    ensures wrote { OnOk result (Appends (W.contents writer.old) (W.contents writer.new) (output_of (unwritten_texts unwritten.now))) }
    ensures ok { OnOk result (W.has_failed writer.new ≡ W.has_failed writer.old) }
    ensures err { OnErr result (W.has_failed writer.new ≡ true) }
{
    write_report(writer, b":report1\n", tables, unwritten.lines(LevelId::One))?;
    write_section(writer, b":halts1\n", unwritten.halts1.as_slice())?;
    write_report(writer, b":report2\n", tables, unwritten.lines(LevelId::Two))?;
    write_section(writer, b":halts2\n", unwritten.halts2.as_slice())?;
    Ok(())
}

/// Writes a heading and the report of these lines.
fn write_report<W: Sink>(
    writer: &mut W,
    heading: &[u8],
    tables: &ReportTables,
    lines: &[PrintLine],
) -> io::Result<()>
    requires { AreTables tables.now }
    ensures wrote { OnOk result (Appends (W.contents writer.old) (W.contents writer.new) (heading.now ++ report_of lines.now)) }
    ensures ok { OnOk result (W.has_failed writer.new ≡ W.has_failed writer.old) }
    ensures err { OnErr result (W.has_failed writer.new ≡ true) }
{
    writer.write_all(heading)?;
    let mut room = [b' '; REPORT_ROOM];
    let mut rest = lines;
    while !rest.is_empty() {
        let (end, after) = tables.lay_lines(&mut room, rest);
        writer.write_all(&room[..end])?;
        rest = after;
    }
    Ok(())
}

/// Writes a heading and its text.
fn write_section<W: Sink>(writer: &mut W, heading: &[u8], section: &[u8]) -> io::Result<()>
    ensures wrote { OnOk result (Appends (W.contents writer.old) (W.contents writer.new) (heading.now ++ section.now)) }
    ensures ok { OnOk result (W.has_failed writer.new ≡ W.has_failed writer.old) }
    ensures err { OnErr result (W.has_failed writer.new ≡ true) }
{
    writer.write_all(heading)?;
    writer.write_all(section)?;
    Ok(())
}
