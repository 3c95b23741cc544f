//! How the cells of a table are written, by the options of `unload` and `load`.

use crate::fault::Fault;
use crate::filled::Words;
use crate::pack_words::{label_of, refused, wrong_words};
use clap::ArgMatches;
use s3_cards::Name;
use s3_cells::{CellStyle, DecimalMark, Field, FieldKind, NumberCells, TextCells, Thousands};
use s3_layout::SourceLayout;

/// What a date is in a table, as `--date-fields` names it.
const DATE_FORM: &str = "YYYY-MM-DD";

/// What only the cells of a table that is read may have.
#[derive(Clone, Copy)]
pub struct Reading<'a> {
    /// Whether small letters are taken as capitals.
    pub capitals: bool,
    /// The mark between thousands, if there is one.
    pub thousands: Option<&'a str>,
}

/// The layout with the cells that the options ask for.
pub fn with_cells(
    rt: &HostRuntime,
    matches: &ArgMatches<'_>,
    source: &str,
    layout: SourceLayout,
    reading: Reading<'_>,
) -> Result<SourceLayout, Fault> {
    let numbers = numbers_of(rt, matches, reading.thousands)?;
    let dates = dates_of(rt, matches, source, &layout)?;
    let texts = TextCells {
        safe: matches.get_flag("safe-cells"),
        capitals: reading.capitals,
    };
    let SourceLayout {
        layout,
        key,
        records,
    } = layout;
    let layout = layout.with_cells(
        rt.alloc(),
        &CellStyle {
            texts,
            numbers,
            dates: &dates,
        },
    )?;
    Ok(SourceLayout {
        layout,
        key,
        records,
    })
}

/// How the cells of numbers are written.
fn numbers_of(
    rt: &HostRuntime,
    matches: &ArgMatches<'_>,
    thousands: Option<&str>,
) -> Result<NumberCells, Fault> {
    let decimal = match matches.get_str("decimal") {
        Some(",") => DecimalMark::Comma,
        _ => DecimalMark::Point,
    };
    Ok(NumberCells {
        decimal,
        thousands: thousands_of(rt, decimal, thousands)?,
    })
}

/// What a cell may have between thousands, which is one of `THOUSANDS`. Refused for the mark before the decimals.
fn thousands_of(
    rt: &HostRuntime,
    decimal: DecimalMark,
    thousands: Option<&str>,
) -> Result<Thousands, Fault> {
    match (thousands, decimal) {
        (None, _) => Ok(Thousands::Nothing),
        (Some(","), DecimalMark::Point) | (Some("."), DecimalMark::Comma) => {
            Ok(Thousands::OtherMark)
        }
        (Some(" "), _) => Ok(Thousands::Blank),
        (Some("'"), _) => Ok(Thousands::Apostrophe),
        (Some(_), _) => Err(wrong_words(
            rt.alloc(),
            "the mark between thousands is the one before the decimals too; give --decimal , with --thousands . or --thousands , alone",
        )),
    }
}

/// The fields that are dates.
fn dates_of(
    rt: &HostRuntime,
    matches: &ArgMatches<'_>,
    source: &str,
    layout: &SourceLayout,
) -> Result<Vec<Name>, Fault> {
    let mut dates = Vec::new(rt.alloc());
    let Some(text) = matches.get_str("date-fields") else {
        return Ok(dates);
    };
    for part in text.split(',') {
        dates.push(date_of(rt, part, source, layout)?)?;
    }
    Ok(dates)
}

/// The field of a date, which has to have six positions.
fn date_of(
    rt: &HostRuntime,
    part: &str,
    source: &str,
    layout: &SourceLayout,
) -> Result<Name, Fault> {
    let name = match part.split_once(":") {
        Some((name, DATE_FORM)) => name_of(rt, name)?,
        _ => return Err(no_date_field(rt)),
    };
    match field_named(layout, name) {
        None => Err(refused(
            Words::of_path(source).with_fields(Some(name), None).fill(
                rt.alloc(),
                "the first source in {path} has no field {field} in these records; name one of its fields in --date-fields",
            ),
        )),
        Some(field) if can_be_date(field) => Ok(name),
        Some(_) => Err(refused(
            Words::of_path(source).with_fields(Some(name), None).fill(
                rt.alloc(),
                "the field {field} in the first source in {path} can't be a date; name one of six positions, a text or a zoned number without decimals",
            ),
        )),
    }
}

fn name_of(rt: &HostRuntime, text: &str) -> Result<Name, Fault> {
    match label_of(rt, text) {
        Err(Fault::Usage(_)) => Err(no_date_field(rt)),
        other => other,
    }
}

fn no_date_field(rt: &HostRuntime) -> Fault {
    wrong_words(
        rt.alloc(),
        "a field of dates is named with its form, as --date-fields SOLD:YYYY-MM-DD; put a comma between several",
    )
}

/// The field of a layout that has a name.
pub fn field_named(layout: &SourceLayout, name: Name) -> Option<&Field> {
    for field in &layout.layout.fields {
        if field.name == name {
            return Some(field);
        }
    }
    None
}

/// Whether a field has the six positions of a date, and is a text or a zoned number without decimals.
pub fn can_be_date(field: &Field) -> bool {
    match field.kind {
        FieldKind::Text(_) | FieldKind::Zoned(0, _) => field.width == 6,
        _ => false,
    }
}
