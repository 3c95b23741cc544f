//! What the definitions say of themselves: worked examples.
ghost use Rattle.std.specs.Prelude.{◌≡◌, [], ◌∷◌, Ok, Err, map, None, Some};
ghost use Rattle.s3_operator.specs.declared.halt_code.HaltCode.TheVariants.{ZeroDivisor, FileFull, NoSpace};
ghost use Rattle.s3_operator.specs.declared.reply_fault.ReplyFault.TheVariants.{NotHalted, NotAllowed};
ghost use Rattle.s3_operator.specs.Replies.{is_allowed};
ghost use Rattle.s3_operator.specs.Halts.{answer_to, waiting, with_halt, with_reply};
ghost use Rattle.s3_operator.specs.Inner.Samples.{digits, going_on, ending, going_codes, ending_codes};

/// Each code of the first list allows 0, 2 and 3, each of the second 2 and 3, and none another digit.
pub fn replies_are_by_table()
    ensures going_on { map (λ code. map (is_allowed code) digits) going_codes ≡ map (λ code. going_on) going_codes }
    ensures ending { map (λ code. map (is_allowed code) digits) ending_codes ≡ map (λ code. ending) ending_codes }
{}

/// A reply is refused if no halt waits, or if the halt doesn't allow the digit. An allowed digit is kept in the halt, which then
/// waits no longer.
pub fn a_reply_is_kept_once()
    ensures none_waits { answer_to 0 (waiting []) ≡ Err NotHalted }
    ensures not_allowed { answer_to 0 (waiting (with_halt 7 FileFull [] [])) ≡ Err NotAllowed }
    ensures allowed { answer_to 3 (waiting (with_halt 7 FileFull [] [])) ≡ Ok tt }
    ensures answered { waiting (with_reply 3 (with_halt 7 FileFull [] [])) ≡ None }
    ensures next { waiting (with_halt 8 NoSpace [] (with_reply 3 (with_halt 7 FileFull [] []))) ≡ Some NoSpace }
    ensures once { with_reply 2 (with_halt 8 ZeroDivisor [] (with_reply 0 (with_halt 7 ZeroDivisor [] []))) ≡ (record { job = 7; code = ZeroDivisor; details = []; reply = Some 0 }) ∷ (record { job = 8; code = ZeroDivisor; details = []; reply = Some 2 }) ∷ [] }
{}
