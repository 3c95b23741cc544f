//! Samples of each number, as laws.

ghost use Rattle.s3_diagnose.specs.Inner.Samples as sample;
ghost use Rattle.s3_diagnose.specs.Inner.Sampling.{HaveTheirs};

/// The sources that are beside each number have its diagnostics on the cards that the rules name, and no others.
#[tactic(auto, using(crate::proofs::Sampled::undefined_rows, crate::proofs::Sampled::redefined_rows, crate::proofs::Sampled::indicated_rows, crate::proofs::Sampled::unfit_rows, crate::proofs::Sampled::misplaced_rows, crate::proofs::Sampled::strayed_rows, crate::proofs::Sampled::mismatched_rows, crate::proofs::Sampled::misused_rows))]
pub fn samples_have_their_diagnostics()
    ensures undefined { HaveTheirs sample.undefined }
    ensures redefined { HaveTheirs sample.redefined }
    ensures indicated { HaveTheirs sample.indicated }
    ensures unfit { HaveTheirs sample.unfit }
    ensures misplaced { HaveTheirs sample.misplaced }
    ensures strayed { HaveTheirs sample.strayed }
    ensures mismatched { HaveTheirs sample.mismatched }
    ensures misused { HaveTheirs sample.misused }
{}
