//! One session: bytes in, bytes out.

ghost use Rattle.std.specs.Prelude.{◌≡◌, ◌≢◌, ◌⊎◌, ℕ, List, Ok, Err, IfOk, IfErr, IfSome, IsErrOf, true};
ghost use Rattle.s3_cli.specs.Session.{Answers, Refuses};
ghost use Rattle.s3_cli.specs.declared.fault.SessionFault.TheVariants.{File};

use crate::fault::SessionFault;
use crate::input::{ReadFault, read_within};
use crate::output::write_lines;
use crate::parts::split_parts;
use crate::watched::{Sink, Source};
use s3_bureau::{ReportTables, RunFault, run_unwritten};
use std::alloc::Global;

/// The most bytes that the input of a session may have.
pub const INPUT_LIMIT: u32 = 4_194_304;

/// Reads an input to its end, runs its decks and its script over a pack, writes the reports and the halt texts, and gives
/// the pack as the run leaves it.
///
/// A refused call writes nothing, unless a write failed. Refused with `Input` if a marker is missing or out of order or there are
/// over 4,194,304 bytes, with `File` exactly if a read or the write failed, and else as the run is refused.
pub fn session<R: Source, W: Sink>(
    alloc: Global,
    pack: &[u8],
    reader: &mut R,
    writer: &mut W,
) -> Result<Vec<u8>, SessionFault>
    ensures wrote { IfOk result (λ saved. (input : List ℕ) × (IfSome (R.remaining reader.old) (λ given. input ≡ given)
        × Answers pack.now input saved.items (W.contents writer.old) (W.contents writer.new))) }
    ensures refused { IfErr result (λ fault. IfSome (R.remaining reader.old) (λ input. Refuses pack.now fault input)) }
    ensures wrote_nothing { IfErr result (λ fault. fault ≢ File → W.contents writer.new ≡ W.contents writer.old) }
    ensures failed { IsErrOf result File → (R.has_failed reader.new ≡ true) ⊎ (W.has_failed writer.new ≡ true) }
    ensures works { ¬ IsErrOf result File → (R.has_failed reader.new ≡ R.has_failed reader.old) × (W.has_failed writer.new ≡ W.has_failed writer.old) }
{
    session_on(alloc, Vec::from_slice(alloc, pack)?, reader, writer)
}

/// Reads an input to its end, runs its decks and its script over a pack, writes the reports and the halt texts, and gives
/// the pack as the run leaves it. The pack is handed over, and so isn't copied.
///
/// A refused call writes nothing, unless a write failed. Refused with `Input` if a marker is missing or out of order or there are
/// over 4,194,304 bytes, with `File` exactly if a read or the write failed, and else as the run is refused.
pub fn session_on<R: Source, W: Sink>(
    alloc: Global,
    pack: Vec<u8>,
    reader: &mut R,
    writer: &mut W,
) -> Result<Vec<u8>, SessionFault>
    ensures wrote { IfOk result (λ saved. (input : List ℕ) × (IfSome (R.remaining reader.old) (λ given. input ≡ given)
        × Answers pack.items input saved.items (W.contents writer.old) (W.contents writer.new))) }
    ensures refused { IfErr result (λ fault. IfSome (R.remaining reader.old) (λ input. Refuses pack.items fault input)) }
    ensures wrote_nothing { IfErr result (λ fault. fault ≢ File → W.contents writer.new ≡ W.contents writer.old) }
    ensures failed { IsErrOf result File → (R.has_failed reader.new ≡ true) ⊎ (W.has_failed writer.new ≡ true) }
    ensures works { ¬ IsErrOf result File → (R.has_failed reader.new ≡ R.has_failed reader.old) × (W.has_failed writer.new ≡ W.has_failed writer.old) }
{
    let input = match read_within(alloc, reader, INPUT_LIMIT) {
        Ok(input) => input,
        Err(ReadFault::TooLong) => return Err(SessionFault::Input),
        Err(ReadFault::Failed) => return Err(SessionFault::File),
        Err(ReadFault::NoMemory) => return Err(SessionFault::Run(RunFault::NoMemory)),
    };
    let Some(parts) = split_parts(input.as_slice()) else {
        return Err(SessionFault::Input);
    };
    // Memory may run out here, but no more once something is written.
    let tables = ReportTables::new(alloc)?;
    let unwritten = run_unwritten(alloc, pack, parts.deck1, parts.deck2, parts.script)?;
    let written = write_lines(writer, &tables, &unwritten);
    let pack = unwritten.into_pack();
    match written {
        Ok(()) => Ok(pack),
        Err(_) => Err(SessionFault::File),
    }
}
