//! What the definitions say of themselves: worked examples, and each switch after the start of a job.
ghost use Rattle.std.specs.Prelude.{◌≡◌, ◌≤◌, ℕ, false, List, [], ◌∷◌, Some, None, Ok};
ghost use Rattle.s3_ocl.specs.declared.values.Switch.{Switch};
ghost use Rattle.s3_meaning.specs.Environment.{switch_on};
ghost use Rattle.s3_solo.specs.Serving.{is_on_after, switch_of, switches_after};
ghost use Rattle.s3_solo.specs.declared.action.Action.TheVariants.{Turn, Reply};
ghost use Rattle.s3_solo.specs.declared.action.Did.TheVariants.{Acted, Idle, Refused};
ghost use Rattle.s3_operator.specs.declared.halt_code.HaltCode.TheVariants.{FaultyJob, NoProgram};
ghost use Rattle.s3_operator.specs.Halts.{with_halt};
ghost use Rattle.s3_cards.specs.declared.levels.LevelId.{LevelId};
ghost use Rattle.s3_slots.specs.Header.{mounted};
ghost use Rattle.s3_slots.specs.declared.header.Header.{Header};
ghost use Rattle.s3_labels.specs.Contents.{contents_of};
ghost use Rattle.s3_labels.specs.Inner.Images.{in_second, migrated};
ghost use Rattle.s3_solo.specs.Inner.Formats.{answers, over_second, shows_no_space};
ghost use Rattle.s3_solo.specs.World.{World, at_start};
ghost use Rattle.s3_solo.specs.declared.action.Action.{Action};
ghost use Rattle.s3_solo.specs.Inner.Samples.{at_first};
ghost use Rattle.s3_solo.specs.Solo.{step_of, refused, solo, closed};
ghost use Rattle.s3_solo.specs.Inner.Samples.{after_turns, at_halt, first_line, halted, listing, passed_over, settings_deck, faulty_deck, two_jobs_deck};

/// The deck that compiles the card lister and lists ABC and DEF. Its turns are: compile, start, card, line, card, line, end of
/// the cards, end of the job.
pub fn card_lister_lists()
    // both lines are printed after eight turns, and nothing is left to do
    ensures whole { (after_turns 8).lines.printed ≡ listing }
    ensures over { (step_of (after_turns 8) Turn).did ≡ Idle }
    ensures no_halts { (after_turns 8).halts ≡ [] }
    // closed after six turns it has the same lines, closed after five the first alone
    ensures six { (closed (after_turns 6)).lines.printed ≡ listing }
    ensures five { (closed (after_turns 5)).lines.printed ≡ first_line ∷ [] }
{}

/// Each of U1 to U8 is on after the start of a job if the job sets it on, or leaves it and it was on.
#[tactic(auto, using(crate::proofs::SwitchLaw::each_switch))]
pub fn each_switch_is_set()
    ensures { (switches : List Switch) (was n : ℕ) → 1 ≤ n → n ≤ 8 → switch_on (switches_after switches was) n ≡ is_on_after (switch_of switches n) (switch_on was n) }
{}

/// Replies 2 and 3 pass over a job that couldn't be started: the halt has the reply, and the next turn begins the next job. Reply
/// 0 is refused with 2, and a reply when no halt waits with 1; both change nothing.
pub fn replies_pass_jobs_over()
    ensures not_allowed { step_of (at_halt two_jobs_deck) (Reply 0) ≡ refused 2 (at_halt two_jobs_deck) }
    ensures none_waits { step_of (at_first two_jobs_deck) (Reply 3) ≡ refused 1 (at_first two_jobs_deck) }
    ensures did { (step_of (at_halt two_jobs_deck) (Reply 3)).did ≡ Acted }
    ensures passed_over { (passed_over two_jobs_deck 3).halts ≡ halted 1 NoProgram (Some 3) ∷ [] }
    ensures once { (step_of (passed_over two_jobs_deck 3) (Reply 3)).did ≡ Refused 1 }
    ensures next { (step_of (passed_over two_jobs_deck 2) Turn).world.halts ≡ halted 1 NoProgram (Some 2) ∷ halted 2 NoProgram None ∷ [] }
{}

/// A job sets date and switches although its program isn't there, and a faulty job sets nothing.
pub fn jobs_set_date_and_switches()
    ensures date { (step_of (at_first settings_deck) Turn).world.date ≡ 0xf0 ∷ 0xf6 ∷ 0xf1 ∷ 0xf5 ∷ 0xf7 ∷ 0xf6 ∷ [] }
    ensures switches { (step_of (at_first settings_deck) Turn).world.switches ≡ 0x81 }
    ensures no_program { (step_of (at_first settings_deck) Turn).world.halts ≡ with_halt 1 NoProgram [] [] }
    // the fault is 4 on the card `/&`
    ensures faulty { (step_of (at_first faulty_deck) Turn).world.halts ≡ with_halt 1 FaultyJob ((4, 4) ∷ []) [] }
    ensures faulty_date { (step_of (at_first faulty_deck) Turn).world.date ≡ (at_first faulty_deck).date }
    ensures faulty_switches { (step_of (at_first faulty_deck) Turn).world.switches ≡ 0 }
{}

/// A level goes the same way over a pack of the second format as over the same pack in the first, and its entries get the same
/// answers, if no halt NS (no space) is shown.
pub fn formats_differ_in_space_alone()
    ensures run { (w : World) (actions : List Action) → shows_no_space (solo w actions).halts ≡ false → solo (over_second w) actions ≡ over_second (solo w actions) }
    ensures answers { (w : World) (actions : List Action) → shows_no_space (solo w actions).halts ≡ false → answers (over_second w) actions ≡ answers w actions }
    ensures end { (w : World) → closed (over_second w) ≡ over_second (closed w) }
{}

/// A level begins over a migrated pack as over the old one, except for the format. It goes the same way and its entries get the
/// same answers, if no halt NS (no space) is shown.
pub fn a_migrated_pack_gives_the_same_run()
    ensures start { (old new : List ℕ) (header : Header) (level : LevelId) (deck : List (List ℕ)) → mounted (contents_of old) ≡ Ok header → migrated old ≡ Ok new → at_start level (in_second header) (contents_of new) deck ≡ over_second (at_start level header (contents_of old) deck) }
    ensures run { (old new : List ℕ) (header : Header) (level : LevelId) (deck : List (List ℕ)) (actions : List Action) → mounted (contents_of old) ≡ Ok header → migrated old ≡ Ok new → shows_no_space (solo (at_start level header (contents_of old) deck) actions).halts ≡ false → solo (at_start level (in_second header) (contents_of new) deck) actions ≡ over_second (solo (at_start level header (contents_of old) deck) actions) }
    ensures answers { (old new : List ℕ) (header : Header) (level : LevelId) (deck : List (List ℕ)) (actions : List Action) → mounted (contents_of old) ≡ Ok header → migrated old ≡ Ok new → shows_no_space (solo (at_start level header (contents_of old) deck) actions).halts ≡ false → answers (at_start level (in_second header) (contents_of new) deck) actions ≡ answers (at_start level header (contents_of old) deck) actions }
{}
