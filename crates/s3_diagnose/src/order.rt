//! The order of diagnostics.

ghost use Rattle.s3_diagnose.specs.Inner.Order.{DiagnosticsAreInOrder};

/// If the numbers of the lines' cards ascend, the diagnostics are in order by card and then number, each pair once, whatever the
/// number of the RUN card.
#[tactic(auto, using(crate::proofs::Ordering::in_order))]
pub fn diagnostics_are_in_order()
    ensures { DiagnosticsAreInOrder }
{}
