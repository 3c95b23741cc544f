//! The page of a day.
ghost use Rattle.std.specs.Prelude.{◌≡◌, ◌++◌, IfOk, OnOk, length, option_map};
ghost use Rattle.std.specs.List.{flat_map};
ghost use Rattle.s3_book.specs.Inner.Index.{area_piece, bar, bars, count_piece, events, extent_bar, extent_row, extents_head, file_row, files_head, files_table, halt_row, halts_head, halts_table, head, index_page, job_row, job_text, jobs_head, jobs_table, largest as largest_spec, line_foot, line_head, line_middle, link_of, map_head, mark, pack_map, region_drawn, region_head, region_table, region_text, reply_piece, report_link, row_foot, shown_piece, start_of, table_foot, time_line, until};
ghost use Rattle.s3_book.specs.Inner.Parts.{page_of, piece_of};

use crate::day::{ChangedFile, Day, Extent, Halt, Job, Region};
use crate::part::{Part, put};
use crate::report::{put_closing, put_opening};
use crate::scale::{begin, end, fits, lane, scaled, span, width};
use s3_cards::LevelId;
use std::alloc::{AllocError, Global};

/// How much of a job's bar its number, the blank after it and both edges take.
const JOB_TAKEN: u64 = 48;

/// How much of a file's bar both edges take.
const FILE_TAKEN: u64 = 8;

/// The page of a day, `index.html`.
pub fn day_page(alloc: Global, day: &Day<'_>) -> Result<Vec<u8>, AllocError>
    ensures { IfOk result (λ page. page.items ≡ index_page day.now) }
{
    let mut text = Vec::new(alloc);
    put_opening(&mut text, day.title)?;
    put_head(&mut text, day)?;
    put_events(&mut text, day)?;
    put_map(&mut text, day.regions)?;
    put_closing(&mut text)?;
    Ok(text)
}

/// Appends the jobs, the halts and the changed files.
fn put_events(text: &mut Vec<u8>, day: &Day<'_>) -> Result<(), AllocError>
    ensures { OnOk result (text.new.items ≡ text.old.items ++ events day.now) }
{
    put_line(text, day.turns, day.jobs, day.halts)?;
    put_jobs(text, day.jobs)?;
    put_halts(text, day.halts)?;
    put_files(text, day.files)
}

/// Appends the jobs on a line of time, with their halts.
fn put_line(
    text: &mut Vec<u8>,
    turns: u64,
    jobs: &[Job<'_>],
    halts: &[Halt<'_>],
) -> Result<(), AllocError>
    ensures { OnOk result (text.new.items ≡ text.old.items ++ time_line turns jobs.now halts.now) }
{
    put_line_head(text)?;
    put_bars(text, turns, jobs)?;
    put_line_middle(text)?;
    put_marks(text, turns, halts)?;
    put_line_foot(text, turns)
}

fn put_bars(text: &mut Vec<u8>, turns: u64, jobs: &[Job<'_>]) -> Result<(), AllocError>
    ensures { OnOk result (text.new.items ≡ text.old.items ++ bars turns 0 jobs.now) }
{
    let mut edge: u64 = 0;
    for job in jobs {
        let start = start_after(edge, job);
        put_bar(text, turns, start, job)?;
        edge = end(turns, start, job.first, job.last);
    }
    Ok(())
}

/// Where the bar of a job may begin, given the end of the bar before it: the first job of a level has no job before it.
fn start_after(edge: u64, job: &Job<'_>) -> u64
    ensures { result ≡ start_of edge job.now }
{
    if job.number == 1 { 0 } else { edge }
}

fn put_marks(text: &mut Vec<u8>, turns: u64, halts: &[Halt<'_>]) -> Result<(), AllocError>
    ensures { OnOk result (text.new.items ≡ text.old.items ++ flat_map (λ h. page_of (mark turns h)) halts.now) }
{
    for halt in halts {
        put_mark(text, turns, halt)?;
    }
    Ok(())
}

/// When a halt has its reply, or else the day's last turn.
fn until_reply(turns: u64, replied: Option<u64>) -> u64
    ensures { result ≡ until turns replied }
{
    match replied {
        Some(turn) => turn,
        None => turns,
    }
}

/// What comes between the turn of a halt and the turn of its reply.
fn reply_part(replied: Option<u64>) -> Part<'static>
    ensures { piece_of result ≡ reply_piece replied }
{
    match replied {
        Some(_) => Part::Markup(b", waits until its reply at turn "),
        None => Part::Markup(b", waits at the end of the day, turn "),
    }
}

/// The class of the files of a region.
fn area_part(level: Option<LevelId>) -> Part<'static>
    ensures { piece_of result ≡ area_piece level }
{
    match level {
        Some(LevelId::One) => Part::Markup(b"level1"),
        Some(LevelId::Two) => Part::Markup(b"level2"),
        None => Part::Markup(b"masters"),
    }
}

/// A part of a label, if the label fits.
fn shown<'x>(is_shown: bool, part: Part<'x>) -> Part<'x>
    ensures { piece_of result ≡ shown_piece is_shown (piece_of part.entry) }
{
    if is_shown { part } else { Part::Markup(b"") }
}

/// Appends the jobs in a table.
fn put_jobs(text: &mut Vec<u8>, jobs: &[Job<'_>]) -> Result<(), AllocError>
    ensures { OnOk result (text.new.items ≡ text.old.items ++ jobs_table jobs.now) }
{
    put_jobs_head(text)?;
    put_job_rows(text, jobs)?;
    put_table_foot(text)
}

fn put_job_rows(text: &mut Vec<u8>, jobs: &[Job<'_>]) -> Result<(), AllocError>
    ensures { OnOk result (text.new.items ≡ text.old.items ++ flat_map job_text jobs.now) }
{
    for job in jobs {
        put_job(text, job)?;
    }
    Ok(())
}

/// Appends a job in the table.
fn put_job(text: &mut Vec<u8>, job: &Job<'_>) -> Result<(), AllocError>
    ensures { OnOk result (text.new.items ≡ text.old.items ++ job_text job.now) }
{
    put_job_row(text, job)?;
    put_link(text, job.file)?;
    put_row_foot(text)
}

/// Appends a link to a report, if a job printed.
fn put_link(text: &mut Vec<u8>, file: Option<&[u8]>) -> Result<(), AllocError>
    ensures { OnOk result (text.new.items ≡ text.old.items ++ link_of (option_map (λ name. name.now) file.entry)) }
{
    match file {
        Some(name) => put_report_link(text, name),
        None => Ok(()),
    }
}

/// Appends the halts in a table.
fn put_halts(text: &mut Vec<u8>, halts: &[Halt<'_>]) -> Result<(), AllocError>
    ensures { OnOk result (text.new.items ≡ text.old.items ++ halts_table halts.now) }
{
    put_halts_head(text, halts.len() as u64)?;
    put_halt_rows(text, halts)?;
    put_table_foot(text)
}

fn put_halt_rows(text: &mut Vec<u8>, halts: &[Halt<'_>]) -> Result<(), AllocError>
    ensures { OnOk result (text.new.items ≡ text.old.items ++ flat_map (λ h. page_of (halt_row h)) halts.now) }
{
    for halt in halts {
        put_halt_row(text, halt)?;
    }
    Ok(())
}

/// Appends the changed files in a table.
fn put_files(text: &mut Vec<u8>, files: &[ChangedFile<'_>]) -> Result<(), AllocError>
    ensures { OnOk result (text.new.items ≡ text.old.items ++ files_table files.now) }
{
    put_files_head(text, files.len() as u64)?;
    put_file_rows(text, files)?;
    put_table_foot(text)
}

fn put_file_rows(text: &mut Vec<u8>, files: &[ChangedFile<'_>]) -> Result<(), AllocError>
    ensures { OnOk result (text.new.items ≡ text.old.items ++ flat_map (λ f. page_of (file_row f)) files.now) }
{
    for file in files {
        put_file_row(text, file)?;
    }
    Ok(())
}

/// How many records a file has, if it exists.
fn count_part(count: Option<u64>) -> Part<'static>
    ensures { piece_of result ≡ count_piece count }
{
    match count {
        Some(count) => Part::Number(count),
        None => Part::Markup(b"no file"),
    }
}

/// Appends the map of the pack.
fn put_map(text: &mut Vec<u8>, regions: &[Region<'_>]) -> Result<(), AllocError>
    ensures { OnOk result (text.new.items ≡ text.old.items ++ pack_map regions.now) }
{
    put_map_head(text)?;
    put_regions(text, largest(regions), regions)
}

/// The tracks of the largest region.
fn largest(regions: &[Region<'_>]) -> u64
    ensures { result ≡ largest_spec regions.now }
{
    let mut most: u64 = 0;
    for region in regions {
        most = most.max(region.tracks);
    }
    most
}

fn put_regions(text: &mut Vec<u8>, whole: u64, regions: &[Region<'_>]) -> Result<(), AllocError>
    ensures { OnOk result (text.new.items ≡ text.old.items ++ flat_map (λ r. region_text whole r) regions.now) }
{
    for region in regions {
        put_region(text, whole, region)?;
    }
    Ok(())
}

/// Appends a region.
fn put_region(text: &mut Vec<u8>, whole: u64, region: &Region<'_>) -> Result<(), AllocError>
    ensures { OnOk result (text.new.items ≡ text.old.items ++ region_text whole region.now) }
{
    put_drawn(text, whole, region)?;
    put_region_table(text, region.files)
}

/// Appends a region as a drawing.
fn put_drawn(text: &mut Vec<u8>, whole: u64, region: &Region<'_>) -> Result<(), AllocError>
    ensures { OnOk result (text.new.items ≡ text.old.items ++ region_drawn whole region.now) }
{
    put_region_head(text, whole, region)?;
    put_extents(text, whole, region.files)?;
    put_extents_head(text)
}

fn put_extents(text: &mut Vec<u8>, whole: u64, files: &[Extent<'_>]) -> Result<(), AllocError>
    ensures { OnOk result (text.new.items ≡ text.old.items ++ flat_map (λ e. page_of (extent_bar whole e)) files.now) }
{
    for file in files {
        put_extent_bar(text, whole, file)?;
    }
    Ok(())
}

/// Appends the files of a region in a table.
fn put_region_table(text: &mut Vec<u8>, files: &[Extent<'_>]) -> Result<(), AllocError>
    ensures { OnOk result (text.new.items ≡ text.old.items ++ region_table files.now) }
{
    put_extent_rows(text, files)?;
    put_table_foot(text)
}

fn put_extent_rows(text: &mut Vec<u8>, files: &[Extent<'_>]) -> Result<(), AllocError>
    ensures { OnOk result (text.new.items ≡ text.old.items ++ flat_map (λ e. page_of (extent_row e)) files.now) }
{
    for file in files {
        put_extent_row(text, file)?;
    }
    Ok(())
}

/// Appends the title, what the day was begun with, the status and the summary.
fn put_head(text: &mut Vec<u8>, day: &Day<'_>) -> Result<(), AllocError>
    ensures { OnOk result (text.new.items ≡ text.old.items ++ page_of (head day.now)) }
{
    put(
        text,
        &[
            Part::Markup(b"<h1>"),
            Part::Value(day.title),
            Part::Markup(b"</h1>\n<pre>"),
            Part::Value(day.given),
            Part::Markup(b"</pre>\n<p><strong>"),
            Part::Value(day.status),
            Part::Markup(b"</strong></p>\n<pre>"),
            Part::Value(day.summary),
            Part::Markup(b"</pre>\n"),
        ],
    )
}

/// Appends what the line of time begins with.
fn put_line_head(text: &mut Vec<u8>) -> Result<(), AllocError>
    ensures { OnOk result (text.new.items ≡ text.old.items ++ page_of line_head) }
{
    put(
        text,
        &[Part::Markup(
            b"<h2>Jobs by turn</h2>\n<svg class=\"chart\" viewBox=\"0 0 1000 64\" role=\"img\" aria-label=\"Jobs by turn\">\n<defs><pattern id=\"waits\" width=\"6\" height=\"6\" patternUnits=\"userSpaceOnUse\" patternTransform=\"rotate(45)\"><rect class=\"stripe\" width=\"3\" height=\"6\"/></pattern></defs>\n<rect class=\"lane\" width=\"1000\" height=\"30\"/>\n<rect class=\"lane\" y=\"34\" width=\"1000\" height=\"30\"/>\n",
        )],
    )
}

/// Appends a job on the line of time, given where its bar may begin.
fn put_bar(text: &mut Vec<u8>, turns: u64, start: u64, job: &Job<'_>) -> Result<(), AllocError>
    ensures { OnOk result (text.new.items ≡ text.old.items ++ page_of (bar turns start job.now)) }
{
    let left = begin(turns, start, job.first);
    let wide = span(turns, left, job.last);
    let is_shown = fits(wide, JOB_TAKEN, job.program.len() as u64);
    put(
        text,
        &[
            Part::Markup(b"<svg x=\""),
            Part::Number(left),
            Part::Markup(b"\" y=\""),
            Part::Number(lane(job.level)),
            Part::Markup(b"\" width=\""),
            Part::Number(wide),
            Part::Markup(b"\" height=\"30\"><title>level "),
            Part::Number(u64::from(job.level.number())),
            Part::Markup(b", job "),
            Part::Number(job.number),
            Part::Markup(b", "),
            Part::Value(job.program),
            Part::Markup(b", "),
            Part::Value(job.kind),
            Part::Markup(b", from turn "),
            Part::Number(job.first),
            Part::Markup(b" to "),
            Part::Number(job.last),
            Part::Markup(b", "),
            Part::Value(job.ending),
            Part::Markup(b"</title><rect class=\"level"),
            Part::Number(u64::from(job.level.number())),
            Part::Markup(b"\" width=\"1000\" height=\"30\"/><text x=\"4\" y=\"20\">"),
            shown(is_shown, Part::Number(job.number)),
            Part::Markup(b" "),
            shown(is_shown, Part::Value(job.program)),
            Part::Markup(b"</text></svg>\n"),
        ],
    )
}

/// Appends what comes between the jobs and the halts on the line of time.
fn put_line_middle(text: &mut Vec<u8>) -> Result<(), AllocError>
    ensures { OnOk result (text.new.items ≡ text.old.items ++ page_of line_middle) }
{
    put(text, &[Part::Markup(b"<g>\n")])
}

/// Appends a halt on the line of time, and how long it waits.
fn put_mark(text: &mut Vec<u8>, turns: u64, halt: &Halt<'_>) -> Result<(), AllocError>
    ensures { OnOk result (text.new.items ≡ text.old.items ++ page_of (mark turns halt.now)) }
{
    let left = begin(turns, 0, halt.turn);
    let last = until_reply(turns, halt.replied);
    put(
        text,
        &[
            Part::Markup(b"<svg x=\""),
            Part::Number(left),
            Part::Markup(b"\" y=\""),
            Part::Number(lane(halt.level)),
            Part::Markup(b"\" width=\""),
            Part::Number(span(turns, left, last)),
            Part::Markup(b"\" height=\"30\"><title>"),
            Part::Value(halt.letters),
            Part::Markup(b" at turn "),
            Part::Number(halt.turn),
            reply_part(halt.replied),
            Part::Number(last),
            Part::Markup(
                b"</title><rect fill=\"url(#waits)\" width=\"1000\" height=\"30\"/><rect class=\"mark\" width=\"6\" height=\"30\"/></svg>\n",
            ),
        ],
    )
}

/// Appends what the line of time ends with.
fn put_line_foot(text: &mut Vec<u8>, turns: u64) -> Result<(), AllocError>
    ensures { OnOk result (text.new.items ≡ text.old.items ++ page_of (line_foot turns)) }
{
    put(
        text,
        &[
            Part::Markup(b"</g>\n</svg>\n<p>Level 1 is above level 2. The whole line is "),
            Part::Number(turns),
            Part::Markup(
                b" turns of both levels. A turn is numbered by the turns that both levels together had taken. A bar begins where the job before it was over; a job of few turns has a wider bar, which moves the next one.</p>\n<p><svg class=\"key\" width=\"6\" height=\"14\"><rect class=\"mark\" width=\"6\" height=\"14\"/></svg> A halt. <svg class=\"key\" width=\"30\" height=\"14\"><rect class=\"level1\" width=\"30\" height=\"14\"/><rect fill=\"url(#waits)\" width=\"30\" height=\"14\"/></svg> The job waits for the reply.</p>\n",
            ),
        ],
    )
}

/// Appends what the table of jobs begins with.
fn put_jobs_head(text: &mut Vec<u8>) -> Result<(), AllocError>
    ensures { OnOk result (text.new.items ≡ text.old.items ++ page_of jobs_head) }
{
    put(
        text,
        &[Part::Markup(
            b"<table>\n<tr><th>Level</th><th>Job</th><th>Program</th><th>Kind</th><th>From turn</th><th>To turn</th><th>Lines</th><th>End</th><th>Report</th></tr>\n",
        )],
    )
}

/// Appends a job in the table, up to its report.
fn put_job_row(text: &mut Vec<u8>, job: &Job<'_>) -> Result<(), AllocError>
    ensures { OnOk result (text.new.items ≡ text.old.items ++ page_of (job_row job.now)) }
{
    put(
        text,
        &[
            Part::Markup(b"<tr><td>"),
            Part::Number(u64::from(job.level.number())),
            Part::Markup(b"</td><td>"),
            Part::Number(job.number),
            Part::Markup(b"</td><td>"),
            Part::Value(job.program),
            Part::Markup(b"</td><td>"),
            Part::Value(job.kind),
            Part::Markup(b"</td><td>"),
            Part::Number(job.first),
            Part::Markup(b"</td><td>"),
            Part::Number(job.last),
            Part::Markup(b"</td><td>"),
            Part::Number(job.lines),
            Part::Markup(b"</td><td>"),
            Part::Value(job.ending),
            Part::Markup(b"</td><td>"),
        ],
    )
}

/// Appends a link to a report.
fn put_report_link(text: &mut Vec<u8>, name: &[u8]) -> Result<(), AllocError>
    ensures { OnOk result (text.new.items ≡ text.old.items ++ page_of (report_link name.now)) }
{
    put(
        text,
        &[
            Part::Markup(b"<a href=\""),
            Part::Link(name),
            Part::Markup(b"\">"),
            Part::Value(name),
            Part::Markup(b"</a>"),
        ],
    )
}

/// Appends what a table ends with.
fn put_table_foot(text: &mut Vec<u8>) -> Result<(), AllocError>
    ensures { OnOk result (text.new.items ≡ text.old.items ++ page_of table_foot) }
{
    put(text, &[Part::Markup(b"</table>\n")])
}

/// Appends what the table of halts begins with, given how many there are.
fn put_halts_head(text: &mut Vec<u8>, count: u64) -> Result<(), AllocError>
    ensures { OnOk result (text.new.items ≡ text.old.items ++ page_of (halts_head count)) }
{
    put(
        text,
        &[
            Part::Markup(b"<h2>Halts: "),
            Part::Number(count),
            Part::Markup(
                b"</h2>\n<table>\n<tr><th>Level</th><th>Job</th><th>Turn</th><th>Halt</th><th>Reply</th></tr>\n",
            ),
        ],
    )
}

/// Appends a halt.
fn put_halt_row(text: &mut Vec<u8>, halt: &Halt<'_>) -> Result<(), AllocError>
    ensures { OnOk result (text.new.items ≡ text.old.items ++ page_of (halt_row halt.now)) }
{
    put(
        text,
        &[
            Part::Markup(b"<tr><td>"),
            Part::Number(u64::from(halt.level.number())),
            Part::Markup(b"</td><td>"),
            Part::Number(halt.job),
            Part::Markup(b"</td><td>"),
            Part::Number(halt.turn),
            Part::Markup(b"</td><td><pre>"),
            Part::Value(halt.words),
            Part::Markup(b"</pre></td><td>"),
            Part::Value(halt.reply),
            Part::Markup(b"</td></tr>\n"),
        ],
    )
}

/// Appends what the table of changed files begins with, given how many there are.
fn put_files_head(text: &mut Vec<u8>, count: u64) -> Result<(), AllocError>
    ensures { OnOk result (text.new.items ≡ text.old.items ++ page_of (files_head count)) }
{
    put(
        text,
        &[
            Part::Markup(b"<h2>Changed files: "),
            Part::Number(count),
            Part::Markup(
                b"</h2>\n<table>\n<tr><th>Region</th><th>File</th><th>Records before</th><th>Records after</th></tr>\n",
            ),
        ],
    )
}

/// Appends a file that changed.
fn put_file_row(text: &mut Vec<u8>, file: &ChangedFile<'_>) -> Result<(), AllocError>
    ensures { OnOk result (text.new.items ≡ text.old.items ++ page_of (file_row file.now)) }
{
    put(
        text,
        &[
            Part::Markup(b"<tr><td>"),
            Part::Value(file.region),
            Part::Markup(b"</td><td>"),
            Part::Value(file.name),
            Part::Markup(b"</td><td>"),
            count_part(file.before),
            Part::Markup(b"</td><td>"),
            count_part(file.after),
            Part::Markup(b"</td></tr>\n"),
        ],
    )
}

/// Appends what the map of the pack begins with.
fn put_map_head(text: &mut Vec<u8>) -> Result<(), AllocError>
    ensures { OnOk result (text.new.items ≡ text.old.items ++ page_of map_head) }
{
    put(text, &[Part::Markup(b"<h2>The pack</h2>\n")])
}

/// Appends a region, up to its files.
fn put_region_head(text: &mut Vec<u8>, whole: u64, region: &Region<'_>) -> Result<(), AllocError>
    ensures { OnOk result (text.new.items ≡ text.old.items ++ page_of (region_head whole region.now)) }
{
    put(
        text,
        &[
            Part::Markup(b"<h3>"),
            Part::Value(region.name),
            Part::Markup(b"</h3>\n<p>"),
            Part::Number(region.tracks),
            Part::Markup(b" tracks, "),
            Part::Number(region.free),
            Part::Markup(b" free</p>\n<svg class=\"chart "),
            area_part(region.level),
            Part::Markup(
                b"\" viewBox=\"0 0 1000 30\" role=\"img\" aria-label=\"Files by track\">\n<rect class=\"lane\" width=\"",
            ),
            Part::Number(width(whole, region.tracks)),
            Part::Markup(b"\" height=\"30\"/>\n"),
        ],
    )
}

/// Appends a file on the map.
fn put_extent_bar(text: &mut Vec<u8>, whole: u64, extent: &Extent<'_>) -> Result<(), AllocError>
    ensures { OnOk result (text.new.items ≡ text.old.items ++ page_of (extent_bar whole extent.now)) }
{
    let wide = width(whole, extent.tracks);
    let is_shown = fits(wide, FILE_TAKEN, extent.name.len() as u64);
    put(
        text,
        &[
            Part::Markup(b"<svg x=\""),
            Part::Number(scaled(whole, extent.before)),
            Part::Markup(b"\" width=\""),
            Part::Number(wide),
            Part::Markup(b"\" height=\"30\"><title>"),
            Part::Value(extent.name),
            Part::Markup(
                b"</title><rect class=\"file\" width=\"1000\" height=\"30\"/><text x=\"4\" y=\"20\">",
            ),
            shown(is_shown, Part::Value(extent.name)),
            Part::Markup(b"</text></svg>\n"),
        ],
    )
}

/// Appends what the table of a region begins with.
fn put_extents_head(text: &mut Vec<u8>) -> Result<(), AllocError>
    ensures { OnOk result (text.new.items ≡ text.old.items ++ page_of extents_head) }
{
    put(
        text,
        &[Part::Markup(
            b"</svg>\n<table>\n<tr><th>File</th><th>Tracks before it</th><th>Tracks</th><th>Records</th></tr>\n",
        )],
    )
}

/// Appends a file in the table of its region.
fn put_extent_row(text: &mut Vec<u8>, extent: &Extent<'_>) -> Result<(), AllocError>
    ensures { OnOk result (text.new.items ≡ text.old.items ++ page_of (extent_row extent.now)) }
{
    put(
        text,
        &[
            Part::Markup(b"<tr><td>"),
            Part::Value(extent.name),
            Part::Markup(b"</td><td>"),
            Part::Number(extent.before),
            Part::Markup(b"</td><td>"),
            Part::Number(extent.tracks),
            Part::Markup(b"</td><td>"),
            Part::Number(extent.records),
            Part::Markup(b"</td></tr>\n"),
        ],
    )
}

/// Appends the end of a row.
fn put_row_foot(text: &mut Vec<u8>) -> Result<(), AllocError>
    ensures { OnOk result (text.new.items ≡ text.old.items ++ page_of row_foot) }
{
    put(text, &[Part::Markup(b"</td></tr>\n")])
}
