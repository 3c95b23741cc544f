//! What numbers are for, said of a whole source at once.

ghost use Rattle.s3_diagnose.specs.Inner.Mismatched.{ElevenIsForMismatchedLines};
ghost use Rattle.s3_diagnose.specs.Inner.Misplaced.{NineIsForLinesWithoutPlace};
ghost use Rattle.s3_diagnose.specs.Inner.Strayed.{TenIsForLinesThatStray};
ghost use Rattle.s3_diagnose.specs.Inner.WholeSamples.{LinesWithoutPlaceAreAsWorked, LinesThatStrayAreAsWorked, MismatchedLinesAreAsWorked};

/// Among the diagnostics of any lines, exactly the lines without a place have 9. The condition on a line is stated over all lines
/// above and below it, without a state from line to line.
#[tactic(auto, using(crate::proofs::Misplacing::nine_is_for_lines_without_place))]
pub fn nine_is_for_lines_without_place()
    ensures { NineIsForLinesWithoutPlace }
{}

/// The lines without a place of sources that were worked by hand from the rules.
#[tactic(auto, using(crate::proofs::WholeSampled::displaced_rows))]
pub fn lines_without_place_are_as_worked()
    ensures { LinesWithoutPlaceAreAsWorked }
{}

/// Among the diagnostics of any lines, exactly the lines that stray have 10: each GOTO whose tag is in another section, and each
/// EXSR whose call is forbidden among all calls of the source.
#[tactic(auto, using(crate::proofs::Straying::ten_is_for_lines_that_stray))]
pub fn ten_is_for_lines_that_stray()
    ensures { TenIsForLinesThatStray }
{}

/// The lines that stray in sources that were worked by hand from the rules.
#[tactic(auto, using(crate::proofs::WholeSampled::straying_rows))]
pub fn lines_that_stray_are_as_worked()
    ensures { LinesThatStrayAreAsWorked }
{}

/// Among the diagnostics of any lines, exactly these lines have 11: lines whose match or control fields disagree, occur twice in
/// a type or belong to a chained file, and lines whose type has another set of match fields than the first type. The nearest
/// record line above a line gives its group, its file and its types.
#[tactic(auto, using(crate::proofs::Mismatching::eleven_is_for_mismatched_lines))]
pub fn eleven_is_for_mismatched_lines()
    ensures { ElevenIsForMismatchedLines }
{}

/// The lines whose match or control fields disagree in sources that were worked by hand from the rules.
#[tactic(auto, using(crate::proofs::WholeSampled::disagreeing_rows))]
pub fn mismatched_lines_are_as_worked()
    ensures { MismatchedLinesAreAsWorked }
{}
