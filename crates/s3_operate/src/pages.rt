//! The pages of each job, in files of their own.

use crate::day::OwnDesk;
use crate::noted::Noted;
use s3_book::report_page;
use s3_bureau::RunLines;
use s3_cards::ebcdic::DIGIT_0;
use s3_cards::{LevelId, Name, PrintLine};
use s3_day_files::{DayFault, Form, Paper, unwritten};
use s3_decks::{push_characters, push_name};
use s3_host_files::{Limit, create_anew};
use s3_operating::PrintedJob;
use s3_pages::{PaperFault, parts, write_pdf, write_text};
use s3_refusals::Shown;
use std::alloc::{AllocError, Global};
use std::fs::File;
use std::io;
use std::io::{BufWriter, ErrorKind, Write};

/// How the files of the pages are made.
#[derive(Clone, Copy)]
pub struct Making {
    /// Files that exist are overwritten.
    pub overwrites: bool,
    /// The most that the files let anyone do.
    pub limit: Option<Limit>,
    /// The folder is reported.
    pub is_reported: bool,
}

/// Writes the pages of all jobs of both levels that printed. It returns the number of these jobs.
pub fn write_paper<'n>(
    rt: &HostRuntime,
    paper: Paper<'n>,
    making: Making,
    desk: &OwnDesk<'_>,
    run: &RunLines,
) -> Result<usize, DayFault<'n>> {
    let one = write_level(rt, paper, making, desk, LevelId::One, &run.one.lines)?;
    let two = write_level(rt, paper, making, desk, LevelId::Two, &run.two.lines)?;
    Ok(one.saturating_add(two))
}

/// Reports where the pages are, and how many jobs they have.
pub fn report_paper(rt: &HostRuntime, paper: Paper<'_>, jobs: usize) {
    let folder = Shown(paper.folder);
    let _ = match jobs {
        0 if paper.form.is_book() => {
            writeln!(
                rt.stderr(),
                "no job printed, so {folder} has only index.html"
            )
        }
        0 => writeln!(rt.stderr(), "no job printed, so {folder} gets no pages"),
        1 => writeln!(rt.stderr(), "the pages of 1 job are in {folder}"),
        _ => writeln!(rt.stderr(), "the pages of {jobs} jobs are in {folder}"),
    };
}

/// Writes the pages of the jobs of a level, given the lines that it has printed. It returns the number of jobs with pages.
fn write_level<'n>(
    rt: &HostRuntime,
    paper: Paper<'n>,
    making: Making,
    desk: &OwnDesk<'_>,
    level: LevelId,
    lines: &[PrintLine],
) -> Result<usize, DayFault<'n>> {
    let jobs = desk.printed_jobs(level)?;
    write_jobs(rt, paper, making, level, &jobs, lines)
}

/// Writes the pages of some jobs, given the lines of all of them. It returns the number of jobs with pages.
fn write_jobs<'n>(
    rt: &HostRuntime,
    paper: Paper<'n>,
    making: Making,
    level: LevelId,
    jobs: &[PrintedJob],
    lines: &[PrintLine],
) -> Result<usize, DayFault<'n>> {
    let counts = counts_of(rt.alloc(), jobs)?;
    let all = parts(rt.alloc(), lines, &counts)?;
    let mut written: usize = 0;
    for (job, part) in jobs.iter().zip(all.iter()) {
        if !part.is_empty() {
            write_job(rt, paper, making, level, job, *part)?;
            written = written.saturating_add(1);
        }
    }
    Ok(written)
}

/// How many lines each job printed except the last one.
fn counts_of(alloc: Global, jobs: &[PrintedJob]) -> Result<Vec<u64>, AllocError> {
    let mut counts = Vec::new(alloc);
    for job in jobs.iter().take(jobs.len().saturating_sub(1)) {
        counts.push(job.lines)?;
    }
    Ok(counts)
}

/// Writes the pages of a job. If that fails, it reports why.
fn write_job<'n>(
    rt: &HostRuntime,
    paper: Paper<'n>,
    making: Making,
    level: LevelId,
    job: &PrintedJob,
    lines: &[PrintLine],
) -> Result<(), DayFault<'n>> {
    let path = path_of(rt.alloc(), paper, level, job)?;
    let title = title_of(rt.alloc(), level, job)?;
    match write_file(rt, path.as_str(), making, paper.form, title.as_str(), lines) {
        Ok(()) => Ok(()),
        Err(Unwritten::NoMemory) => Err(DayFault::from(AllocError)),
        Err(Unwritten::Call(error)) => {
            // the line names the file, and the fault the folder
            let _ = unwritten(rt, path.as_str(), &error);
            Err(DayFault::File(paper.folder))
        }
        Err(Unwritten::TooLong) => {
            report_too_long(rt, path.as_str());
            Err(DayFault::File(paper.folder))
        }
    }
}

/// Reports that a job has more pages than a document can have.
fn report_too_long(rt: &HostRuntime, path: &str) {
    let path = Shown(path);
    let _ = writeln!(
        rt.stderr(),
        "{path} can't be written: the job has more pages than a PDF document can have; use --form text"
    );
}

/// Why a file of pages isn't written.
#[derive(Clone, Copy)]
enum Unwritten {
    /// Memory ran out.
    NoMemory,
    /// A call on the file failed.
    Call(io::Error),
    /// There are more pages, or more bytes, than a document can have.
    TooLong,
}

/// Writes a file of pages.
fn write_file(
    rt: &HostRuntime,
    path: &str,
    making: Making,
    form: Form,
    title: &str,
    lines: &[PrintLine],
) -> Result<(), Unwritten> {
    match create_anew(rt, path, making.overwrites, making.limit) {
        Ok(file) => write_noted(rt.alloc(), &mut Noted::new(file), form, title, lines),
        Err(error) => Err(of_call(&error)),
    }
}

/// Writes pages, and gives the reason of a write that failed.
fn write_noted(
    alloc: Global,
    file: &mut Noted<File>,
    form: Form,
    title: &str,
    lines: &[PrintLine],
) -> Result<(), Unwritten> {
    match (write_pages(alloc, file, form, title, lines), file.failure) {
        (Ok(()), _) => Ok(()),
        (Err(PaperFault::TooLong), _) => Err(Unwritten::TooLong),
        (Err(PaperFault::File), Some(error)) => Err(of_call(&error)),
        // each other failure is one of memory
        (Err(_), _) => Err(Unwritten::NoMemory),
    }
}

fn write_pages(
    alloc: Global,
    file: &mut Noted<File>,
    form: Form,
    title: &str,
    lines: &[PrintLine],
) -> Result<(), PaperFault> {
    let mut writer = match BufWriter::new(alloc, file) {
        Ok(writer) => writer,
        Err(_) => return Err(PaperFault::NoMemory),
    };
    match form {
        Form::Text => write_text(alloc, lines, &mut writer)?,
        Form::Document { look, size } => {
            write_pdf(alloc, title.as_bytes(), lines, look, size, &mut writer)?;
        }
        Form::Book => write_html(alloc, title, lines, &mut writer)?,
    }
    match writer.flush() {
        Ok(()) => Ok(()),
        Err(_) => Err(PaperFault::File),
    }
}

/// Writes the pages of a job's lines as an HTML page.
fn write_html<W: Write>(
    alloc: Global,
    title: &str,
    lines: &[PrintLine],
    writer: &mut W,
) -> Result<(), PaperFault> {
    let mut text = Vec::new(alloc);
    write_text(alloc, lines, &mut text)?;
    let page = report_page(alloc, title.as_bytes(), text.as_slice())?;
    match writer.write_all(page.as_slice()) {
        Ok(()) => Ok(()),
        Err(_) => Err(PaperFault::File),
    }
}

/// Writes a file of the folder, whole. If that fails, it reports why.
pub fn write_bytes<'n>(
    rt: &HostRuntime,
    path: &str,
    paper: Paper<'n>,
    making: Making,
    bytes: &[u8],
) -> Result<(), DayFault<'n>> {
    let written = match create_anew(rt, path, making.overwrites, making.limit) {
        Ok(mut file) => file.write_all(bytes),
        Err(error) => Err(error),
    };
    match written {
        Ok(()) => Ok(()),
        Err(error) => {
            let _ = unwritten(rt, path, &error);
            Err(DayFault::File(paper.folder))
        }
    }
}

/// What a failed call on a file of pages is.
fn of_call(error: &io::Error) -> Unwritten {
    if error.kind() == ErrorKind::OutOfMemory {
        Unwritten::NoMemory
    } else {
        Unwritten::Call(*error)
    }
}

/// The file of a job, in its folder.
fn path_of(
    alloc: Global,
    paper: Paper<'_>,
    level: LevelId,
    job: &PrintedJob,
) -> Result<String, AllocError> {
    let mut path = String::from_str(alloc, paper.folder)?;
    path.push('/')?;
    push_file(&mut path, paper.form, level, job)?;
    Ok(path)
}

/// Appends the name of a job's file: its level, its number in at least four digits, and its program.
pub fn push_file(
    path: &mut String,
    form: Form,
    level: LevelId,
    job: &PrintedJob,
) -> Result<(), AllocError> {
    let level = level.number();
    let number = job.number;
    write!(path, "{level}-{number:04}")?;
    if let Some(program) = job.program {
        path.push('-')?;
        push_name(path, program)?;
    }
    path.push_str(match form {
        Form::Text => ".txt",
        Form::Document { look: _, size: _ } => ".pdf",
        Form::Book => ".html",
    })?;
    Ok(())
}

/// The title of a job's document: its program, its number, its level and its date, if it had one.
fn title_of(alloc: Global, level: LevelId, job: &PrintedJob) -> Result<String, AllocError> {
    let mut title = String::new(alloc);
    push_program(&mut title, job.program)?;
    let level = level.number();
    let number = job.number;
    write!(title, "job {number} of level {level}")?;
    if job.date.iter().any(|digit| *digit != DIGIT_0) {
        title.push(',')?;
        push_date(&mut title, job.date)?;
    }
    Ok(title)
}

/// Appends a date, as ` 12/31/76`.
pub fn push_date(title: &mut String, date: [u8; 6]) -> Result<(), AllocError> {
    let [month1, month2, day1, day2, year1, year2] = date;
    title.push(' ')?;
    push_characters(title, &[month1, month2])?;
    title.push('/')?;
    push_characters(title, &[day1, day2])?;
    title.push('/')?;
    push_characters(title, &[year1, year2])
}

fn push_program(title: &mut String, program: Option<Name>) -> Result<(), AllocError> {
    if let Some(program) = program {
        push_name(title, program)?;
        title.push_str(", ")?;
    }
    Ok(())
}
