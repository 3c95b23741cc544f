//! The request that an output line makes.
ghost use Rattle.std.specs.Prelude.{◌≡◌, ◌≤◌, true, length};
ghost use Rattle.s3_lines.specs.Inner.Ranges.{spacing_in_range};
ghost use Rattle.s3_meaning.specs.OutputLines.{Output};
ghost use Rattle.s3_meaning.specs.Cycle.{again};
ghost use Rattle.s3_meaning.specs.Runs.{ask};
ghost use Rattle.s3_meaning.specs.Output.{disk_request as disk_request_spec, filled, printed, put_carriage, stored_or_halted};
ghost use Rattle.s3_output.specs.Inner.Carriages.{place_moved};
ghost use Rattle.s3_match.specs.Inner.Heads.{file_at};
ghost use Rattle.s3_match.specs.Inner.Types.{name_of_file};
ghost use Rattle.s3_cycle.specs.Inner.Requests.{Allows, IsDiskFile, request_to};
ghost use Rattle.s3_cycle.specs.Inner.Rest.{lines_from};
ghost use Rattle.s3_cycle.specs.Inner.Going.{AreSound, Changes, IsPastLine, IsRunning, IsWalk, GoesOn, held_by, here, puts_record};
ghost use Rattle.s3_cycle.specs.Inner.Printing.{AsksFor, CanStore};

use crate::progress::Point;
use crate::request::{FileCall, Request};
use crate::stepper::Stepper;
use s3_lines::sheet::Spacing;
use s3_output::carriage::{Carriage, Moved};
use s3_output::requests::DiskRequest;
use s3_program::starts::Walk;

impl Stepper {
    /// Prints the line that is composed, and moves the carriage.
    pub fn print(&mut self, spacing: &Spacing, walk: Walk, next: usize)
        requires running { IsRunning self.old }
        requires walk { IsWalk self.old.program self.old.progress walk }
        requires line { (1 ≤ length self.old.composition) × (length self.old.composition ≤ 132) }
        requires ranged { spacing_in_range spacing.now ≡ true }
        ensures { (line : Output) → line.spacing ≡ spacing.now
            → GoesOn self.old self.new (here self.old (λ source program progress. printed source line (filled self.old.composition) (lines_from source program progress walk next))) }
    {
        let printed = self.state.carriage.print(spacing);
        self.move_carriage(printed.behind);
        let request = Request::Print {
            page: printed.place.carriage.page,
            line: printed.place.carriage.line,
        };
        self.wait(request, Point::Lines { walk, next });
    }

    /// Puts the carriage where it has moved to; overflow turns the overflow indicator on.
    fn move_carriage(&mut self, to: Moved)
        requires { IsRunning self.old }
        ensures { Changes self.old self.new (λ source. put_carriage source (place_moved to)) }
    {
        self.put_carriage(to.carriage);
        if to.overflow {
            self.turn_entry(self.overflow, true);
        }
    }

    /// Puts the carriage there.
    fn put_carriage(&mut self, to: Carriage)
        requires { AreSound self.old.program self.old.state }
        ensures { Changes self.old self.new (λ source e. record e { page = to.page; line = to.line }) }
    {
        self.state.carriage = to;
    }

    /// Asks that the record that is composed be put into its file.
    pub fn store(&mut self, file: usize, request: DiskRequest, walk: Walk, next: usize)
        requires running { IsRunning self.old }
        requires walk { IsWalk self.old.program self.old.progress walk }
        requires past { IsPastLine self.old.program walk next }
        requires stores { CanStore self.old file request }
        ensures { (line : Output) → AsksFor self.old.program file line request
            → GoesOn self.old self.new (here self.old (λ source program progress e. ask (disk_request_spec (file_at program file) line self.old.composition e)
            (λ answer. stored_or_halted (again source) (lines_from source program progress walk next) answer e))) }
    {
        let call = self.record_call(file, request);
        self.wait(Request::File { file, call }, Point::Records { walk, next });
    }

    /// The call that puts the record into its file.
    fn record_call(&self, file: usize, request: DiskRequest) -> FileCall
        requires sound { AreSound self.now.program self.now.state }
        requires stores { CanStore self.now file request }
        ensures fits { IsDiskFile self.now.program.files.items file (Allows result (length self.now.composition)) }
        ensures kind { puts_record result ≡ true }
        ensures request { (line : Output) → AsksFor self.now.program file line request
            → request_to (name_of_file self.now.program file) self.now.composition result ≡ disk_request_spec (file_at self.now.program file) line self.now.composition (held_by self.now) }
    {
        match request {
            DiskRequest::Append => FileCall::Append,
            DiskRequest::Add => FileCall::Add,
            DiskRequest::Update => FileCall::Update {
                current: self.state.current[file],
            },
        }
    }
}
