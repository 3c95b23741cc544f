//! One session of the card lister, over readers and writers that fail or are slow.

use crate::packs::new_pack;
use s3_cli::{ImageFault, SessionFault, Watched, session};
use std::alloc::Global;
use std::io;
use std::io::{Read, Write};
use std::process::Abort;
use std::test::Fail;

/// A session of the card lister on level 1.
const INPUT: &[u8] = b":deck1
// LOAD $RPG,F1
// RUN
     H                                                                    LIST
     FCARDS   IP  F  96  96            MFCU1
     FPRINT   O   F 132 132            PRINTER
     ICARDS   AA  01
     I                                        1   3 TEXT
     OPRINT   D        01
     O                         TEXT       3
/*
/&
// LOAD LIST,F1
// RUN
ABC
DEF
/*
/&
:deck2
:script
T1 8
";

const OUTPUT: &[u8] = b":report1\n0001 01 ABC\n0001 02 DEF\n:halts1\n:report2\n:halts2\n";

/// Gives or takes at most `step` bytes a call, and fails at call `fuse`, counted from 1 (at none for 0).
#[derive(Drop)]
struct Channel {
    bytes: Vec<u8>,
    /// How many bytes were given.
    given: usize,
    step: usize,
    calls: u32,
    fuse: u32,
}

impl Channel {
    fn call(&mut self) -> io::Result<()> {
        self.calls = self.calls.saturating_add(1);
        if self.calls == self.fuse {
            return Err(io::Error::from(io::ErrorKind::Other));
        }
        Ok(())
    }
}

impl Read for Channel {
    fn read(&mut self, buf: &mut [u8]) -> io::Result<usize> {
        self.call()?;
        let rest = &self.bytes[self.given.min(self.bytes.len())..];
        let count = rest.len().min(self.step).min(buf.len());
        buf[..count].copy_from_slice(&rest[..count]);
        self.given = self.given.saturating_add(count);
        Ok(count)
    }
}

impl Write for Channel {
    fn write(&mut self, buf: &[u8]) -> io::Result<usize> {
        self.call()?;
        let count = buf.len().min(self.step);
        self.bytes.extend_from_slice(&buf[..count])?;
        Ok(count)
    }

    fn flush(&mut self) -> io::Result<()> {
        Ok(())
    }
}

/// How a channel gives or takes bytes: at most so many a call, with a fuse at this call, if it isn't 0.
#[derive(Clone, Copy)]
struct Pace {
    step: usize,
    fuse: u32,
}

fn open_channel(bytes: Vec<u8>, pace: Pace) -> Watched<Channel> {
    Watched::new(Channel {
        bytes,
        given: 0,
        step: pace.step,
        calls: 0,
        fuse: pace.fuse,
    })
}

/// What a writer was given.
fn written(writer: Watched<Channel>) -> Vec<u8> {
    let Watched {
        channel: Channel {
            bytes,
            given: _,
            step: _,
            calls: _,
            fuse: _,
        },
        has_failed: _,
    } = writer;
    bytes
}

/// What a session answers.
#[derive(Clone, Copy)]
enum Answer {
    Done,
    /// A read or a write failed.
    File,
    /// It is refused for another cause.
    Otherwise,
}

fn answer_of(ended: Result<Vec<u8>, SessionFault>) -> Answer {
    match ended {
        Ok(_) => Answer::Done,
        Err(SessionFault::File) => Answer::File,
        Err(_) => Answer::Otherwise,
    }
}

/// What came of a session.
#[derive(Drop)]
struct Exchange {
    answer: Answer,
    reads: u32,
    has_read_failed: bool,
    has_write_failed: bool,
    written: Vec<u8>,
}

/// The session over a reader and a writer.
fn exchange_over(alloc: Global, pack: &[u8], input: Vec<u8>, read: Pace, write: Pace) -> Exchange {
    let mut reader = open_channel(input, read);
    let mut writer = open_channel(Vec::new(alloc), write);
    let answer = answer_of(session(alloc, pack, &mut reader, &mut writer));
    Exchange {
        answer,
        reads: reader.channel.calls,
        has_read_failed: reader.has_failed,
        has_write_failed: writer.has_failed,
        written: written(writer),
    }
}

/// The same over a new pack.
fn exchange_at(alloc: Global, read: Pace, write: Pace) -> Result<Exchange, ImageFault> {
    let pack = new_pack(alloc, 1)?;
    let input = Vec::from_slice(alloc, INPUT)?;
    Ok(exchange_over(alloc, pack.as_slice(), input, read, write))
}

/// A reader that gives a byte a call is read whole, and a writer that takes one has all of the text.
#[test]
fn a_byte_a_call(rt: HostRuntime) -> Result<(), Fail> {
    let pace = Pace { step: 1, fuse: 0 };
    let exchange = exchange_at(rt.alloc(), pace, pace)?;
    assert!(rt; matches!(exchange.answer, Answer::Done));
    assert!(rt; exchange.written.as_slice() == OUTPUT);
    // each byte, and the end
    assert!(rt; exchange.reads as usize == INPUT.len().saturating_add(1));
    Ok(())
}

/// Which side of a session has a fuse.
#[derive(Clone, Copy)]
enum Side {
    Reader,
    Writer,
}

impl Exchange {
    /// Whether a session with a fuse on a side ended as it must: with all of its text, or with the answer that a file failed.
    /// Then nothing is written if a read failed, and the beginning of the text if a write did.
    fn is_right(&self, side: Side) -> bool {
        let written = self.written.as_slice();
        match self.answer {
            Answer::Done => written == OUTPUT,
            Answer::File => match side {
                Side::Reader => self.has_read_failed & written.is_empty(),
                Side::Writer => self.has_write_failed & OUTPUT.starts_with(written),
            },
            Answer::Otherwise => false,
        }
    }
}

/// How a session with a fuse ended.
#[derive(Clone, Copy)]
struct Ended {
    is_done: bool,
    is_right: bool,
}

/// The session with a fuse at this call of a side.
fn end_with_fuse(alloc: Global, side: Side, fuse: u32) -> Result<Ended, ImageFault> {
    let (read_fuse, write_fuse) = match side {
        Side::Reader => (fuse, 0),
        Side::Writer => (0, fuse),
    };
    let read = Pace {
        step: 100,
        fuse: read_fuse,
    };
    let write = Pace {
        step: 7,
        fuse: write_fuse,
    };
    let exchange = exchange_at(alloc, read, write)?;
    Ok(Ended {
        is_done: matches!(exchange.answer, Answer::Done),
        is_right: exchange.is_right(side),
    })
}

/// Runs the session with a fuse at call 1, 2 and so on of a side, up to the run in which none fails.
fn assert_at_each_call(rt: &impl Abort, alloc: Global, side: Side) -> Result<(), Fail> {
    for fuse in 1..1_000u32 {
        let ended = end_with_fuse(alloc, side, fuse)?;
        assert!(rt; ended.is_right, "fuse at call {fuse}");
        if ended.is_done {
            assert!(rt; fuse > 2, "the session made fewer than {fuse} calls");
            return Ok(());
        }
    }
    panic!(rt; "the session never ends without a failure");
}

/// If a read fails, the session answers so, and nothing is written.
#[test]
fn a_reader_that_fails_at_each_call(rt: HostRuntime) -> Result<(), Fail> {
    assert_at_each_call(&rt, rt.alloc(), Side::Reader)
}

/// If a write fails, the session answers so; what was taken is the beginning of the text.
#[test]
fn a_writer_that_fails_at_each_call(rt: HostRuntime) -> Result<(), Fail> {
    assert_at_each_call(&rt, rt.alloc(), Side::Writer)
}
