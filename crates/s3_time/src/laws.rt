//! What the reference model says of drains, of turns that are idle, and of replies.
ghost use Rattle.std.specs.Prelude.{◌≡◌, ◌≢◌, ◌-◌, ◌++◌, ℕ, true, List, [], None, length, replicate};
ghost use Rattle.s3_solo.specs.declared.action.Action.{Action};
ghost use Rattle.s3_solo.specs.declared.action.Action.TheVariants.{Turn, Drain};
ghost use Rattle.s3_solo.specs.declared.action.Did.TheVariants.{Acted, Idle};
ghost use Rattle.s3_operator.specs.Halts.{is_waiting};
ghost use Rattle.s3_solo.specs.Lines.{has_room};
ghost use Rattle.s3_time.specs.Inner.Rest.{IsReached, WaitsOrIsOver};
ghost use Rattle.s3_solo.specs.World.{World};
ghost use Rattle.s3_solo.specs.Solo.{solo, step_of, closed};
ghost use Rattle.s3_time.specs.Inner.Moves.{emptied, IsAtRest, moves, replies, accepted, unhindered, AllAct};

/// Drains, idle turns and refused replies make no difference except for how many lines are drained: the world after any entries
/// is that after the turns and replies which acted, the queue drained to the end before each.
pub fn drains_make_no_difference()
    ensures world { (w : World) (actions : List Action) → emptied (solo w actions) ≡ unhindered w (moves w actions) }
    ensures act { (w : World) (actions : List Action) → AllAct w (moves w actions) }
    // without a reply these are so many turns
    ensures turns { (w : World) (actions : List Action) → replies actions ≡ [] → (n : ℕ) × (moves w actions ≡ replicate n Turn) }
{}

/// Two lists of turns and drains that both bring a level to rest leave the same abstract state, except for how many lines are
/// drained, and the same at the end of a run: the same printed lines, halts, files, library, switches and date.
pub fn time_makes_no_difference()
    ensures world { (w : World) (one other : List Action) → replies one ≡ [] → replies other ≡ [] → IsAtRest (solo w one) → IsAtRest (solo w other) → emptied (solo w one) ≡ emptied (solo w other) }
    ensures end { (w : World) (one other : List Action) → replies one ≡ [] → replies other ≡ [] → IsAtRest (solo w one) → IsAtRest (solo w other) → closed (solo w one) ≡ closed (solo w other) }
{}

/// Two lists of entries that have the same accepted replies, and that both bring a level to rest, leave the same abstract state
/// except for how many lines are drained, and the same at the end of a run. One that doesn't come as far has done the first of
/// the same moves.
pub fn accepted_replies_say_all()
    ensures moves { (w : World) (one other : List Action) → accepted w one ≡ accepted w other → IsAtRest (solo w one) → IsAtRest (solo w other) → moves w one ≡ moves w other }
    ensures world { (w : World) (one other : List Action) → accepted w one ≡ accepted w other → IsAtRest (solo w one) → IsAtRest (solo w other) → emptied (solo w one) ≡ emptied (solo w other) }
    ensures end { (w : World) (one other : List Action) → accepted w one ≡ accepted w other → IsAtRest (solo w one) → IsAtRest (solo w other) → closed (solo w one) ≡ closed (solo w other) }
    ensures part { (w : World) (one other : List Action) (later : List ℕ) → accepted w one ≡ accepted w other ++ later → IsAtRest (solo w one) → (rest : List Action) × (moves w one ≡ moves w other ++ rest) }
{}

/// A level is at rest if a turn is idle although its queue has space, or although no line is queued. It is also at rest if a halt
/// waits, or if no job is at work and none is left. At rest a turn is idle, and as many drains as there are queued lines empty
/// the queue.
pub fn answers_say_rest()
    ensures room { (w : World) → (step_of w Turn).did ≡ Idle → has_room w.lines ≡ true → IsAtRest w }
    ensures empty { (w : World) → (step_of w Turn).did ≡ Idle → (step_of w Drain).did ≢ Acted → IsAtRest w }
    ensures idle { (w : World) → IsAtRest w → (step_of w Turn).did ≡ Idle }
    ensures waits { (w : World) → is_waiting w.halts ≡ true → IsAtRest w }
    ensures over { (w : World) → w.job ≡ None → w.deck.jobs ≡ [] → IsAtRest w }
    // a level doesn't come to rest in another way: its job never asks for a file that it doesn't have, or for a halt that doesn't
    // wait
    ensures nothing_else { (w : World) → IsReached w → IsAtRest w → WaitsOrIsOver w }
    ensures drains { (w : World) → IsReached w → solo w (replicate (length w.lines.printed - w.lines.drained) Drain) ≡ emptied w }
{}
