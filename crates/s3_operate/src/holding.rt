//! Level 2's report while standard output waits for level 1.
ghost use Rattle.std.specs.Prelude.{◌≡◌};
ghost use Rattle.s3_desk.specs.Inner.Events.{Event};

use s3_bureau::Halt;
use s3_cards::LevelId;
use s3_desk::{Machine, Operator, Papers};
use s3_host_files::retried;
use s3_replay::Performed;
use s3_reports::Reports;
use std::alloc::AllocError;
use std::fs::{File, OpenOptions};
use std::io;
use std::io::Write;

/// An empty file of the launcher. If the day is killed, the launcher prints what the file has.
#[derive(Drop)]
struct HeldFile {
    file: File,
}

impl HeldFile {
    /// The file of this name; none if it can't be written or has any byte, so that nothing is lost.
    fn open(rt: &HostRuntime, name: &str) -> Option<HeldFile> {
        let mut options = OpenOptions::new();
        let file = options.write(true).open(rt, name).ok()?;
        let found = retried::metadata_of(&file).ok()?;
        if found.is_file() && found.len() == 0 {
            Some(HeldFile { file })
        } else {
            None
        }
    }

    /// Makes the file empty again.
    fn clear(&self) {
        let _ = self.file.set_len(0);
    }
}

impl Write for HeldFile {
    fn write(&mut self, bytes: &[u8]) -> io::Result<usize> {
        self.file.write(bytes)
    }

    fn flush(&mut self) -> io::Result<()> {
        self.file.flush()
    }
}

/// An operator, and a file that has level 2's report as long as standard output waits for level 1's.
#[derive(Drop)]
pub struct Holding<O: Drop> {
    /// The operator.
    pub operator: O,
    held: Option<Reports<HeldFile>>,
    /// Level 1's deck can be read: else standard output has level 2's report only after the day.
    is_one_read: bool,
}

impl<O: Drop> Holding<O> {
    /// An operator before its day, and the name of the file, if there is one. `is_one_read` says that level 1's deck can be read.
    pub fn new(
        rt: &HostRuntime,
        operator: O,
        name: Option<&str>,
        is_one_read: bool,
    ) -> Result<Holding<O>, AllocError> {
        match held_of(rt, name) {
            Ok(held) => Ok(Holding {
                operator,
                held,
                is_one_read,
            }),
            Err(error) => {
                drop(operator);
                Err(error)
            }
        }
    }

    /// Makes the file empty, once standard output has all that was printed.
    pub fn end(&mut self)
        ensures { self.new.operator ≡ self.old.operator }
    {
        if let Some(held) = self.held.take() {
            held.writer().clear();
        }
    }

    /// Writes level 2's lines to the file, or makes it empty once standard output has them.
    fn hold(&mut self, papers: Papers<'_>)
        ensures { self.new.operator ≡ self.old.operator }
    {
        if papers.is_one_over && self.is_one_read {
            self.end();
        } else if let Some(held) = &mut self.held {
            held.follow(&[], papers.two, true);
        }
    }
}

/// A report of level 2 alone, in the file of this name.
fn held_of(rt: &HostRuntime, name: Option<&str>) -> Result<Option<Reports<HeldFile>>, AllocError> {
    let Some(name) = name else {
        return Ok(None);
    };
    match HeldFile::open(rt, name) {
        Some(file) => Ok(Some(Reports::new(rt.alloc(), file)?)),
        None => Ok(None),
    }
}

impl<M: Machine, O: Operator<M> + Drop> Operator<M> for Holding<O> {
    ghost meets = { λ old event new. O.meets old.operator event new.operator };

    fn follow(
        &mut self,
        machine: &M,
        level: LevelId,
        papers: Papers<'_>,
        performed: &Performed,
    ) -> Result<(), AllocError> {
        self.operator.follow(machine, level, papers, performed)?;
        self.hold(papers);
        Ok(())
    }

    fn show(
        &mut self,
        machine: &M,
        level: LevelId,
        halt: &Halt,
        evidence: &M::Evidence,
    ) -> Result<(), AllocError> {
        self.operator.show(machine, level, halt, evidence)
    }

    fn reply(&mut self, machine: &M, level: LevelId, halt: &Halt) -> Option<u8> {
        self.operator.reply(machine, level, halt)
    }
}
