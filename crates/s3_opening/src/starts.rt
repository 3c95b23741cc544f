//! A file of a job that passed its tests.
ghost use Rattle.std.specs.Prelude.{◌≡◌};
ghost use Rattle.std.specs.List.{list_any};
ghost use Rattle.s3_cards.specs.Names.{same_name};
ghost use Rattle.s3_opening.specs.Inner.Starts.{step_in};
ghost use Rattle.s3_opening.specs.Inner.Tests.{label_of, new_of};

use s3_cards::Name;
use s3_job_files::OpenFile;
use s3_slots::NewFile;

/// The state of a file at the start of its job.
#[derive(Drop)]
pub enum Start {
    /// It is on the pack, and is open now.
    Opened(OpenFile),
    /// It is to be made as this new file. The name is the program's name for it.
    ToMake(Name, NewFile),
}

impl Start {
    /// The name of the file's label on the pack.
    pub fn label(&self) -> Name
        ensures { result ≡ label_of (step_in self.now) }
    {
        match self {
            Start::Opened(file) => file.label.name,
            Start::ToMake(_, new) => new.name,
        }
    }

    /// The new file that is to be made; none if the file is open already.
    pub fn to_make(&self) -> Option<NewFile>
        ensures { result ≡ new_of (step_in self.now) }
    {
        match self {
            Start::Opened(_) => None,
            Start::ToMake(_, new) => Some(*new),
        }
    }
}

/// Whether one of these files has this label.
pub fn is_taken(label: Name, starts: &[Start]) -> bool
    ensures { result ≡ list_any (λ start. same_name (label_of (step_in start)) label) starts.now }
{
    starts.iter().any(|start| start.label() == label)
}
