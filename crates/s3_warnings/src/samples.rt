//! Samples of each kind, as theorems.

ghost use Rattle.s3_warnings.specs.Inner.Samples as sample;
ghost use Rattle.s3_warnings.specs.Inner.Samples.{HaveTheirs};

/// The sources of each kind of warning have it on the cards that the rules name, and on no others.
#[tactic(auto, using(crate::proofs::Sampled::indicator_rows, crate::proofs::Sampled::contradiction_rows, crate::proofs::Sampled::file_rows, crate::proofs::Sampled::result_rows, crate::proofs::Sampled::overlap_rows))]
pub fn samples_have_their_warnings()
    ensures indicators { HaveTheirs sample.indicators }
    ensures contradictions { HaveTheirs sample.contradictions }
    ensures files { HaveTheirs sample.files }
    ensures results { HaveTheirs sample.results }
    ensures overlapping { HaveTheirs sample.overlapping }
{}
