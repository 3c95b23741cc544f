//! What the definitions say of themselves: laws, and worked examples.

ghost use Rattle.std.specs.Prelude.{◌≡◌, ◌+◌, ◌*◌, ◌<◌, ◌≤◌, ℕ, pos, List, [], ◌∷◌, map, true, false, All, IsSome, Some, None, filter, replicate};
ghost use Rattle.s3_meaning.specs.Carriage.{Carriage, spaced, skipped};
ghost use Rattle.s3_meaning.specs.Selection.{Selected, key_of, is_less, least};
ghost use Rattle.s3_meaning.specs.Source.{Source, source_of};
ghost use Rattle.s3_meaning.specs.Requests.{Card, Read, Chain, RecordNumber, Append, Add, Update, Jump, Found, Nothing, Done, Refused, Print, End, Ask, Reply};
ghost use Rattle.s3_meaning.specs.Inner.Requests.{fits};
ghost use Rattle.s3_operator.specs.declared.halt_code.HaltCode.TheVariants.{FileFull, KeyNotAscending, DuplicateKey, NothingToUpdate, KeyChanged};
ghost use Rattle.s3_operator.specs.Inner.Samples.{going_codes, ending_codes};
ghost use Rattle.s3_meaning.specs.Inner.Fitting.{all_answers};
ghost use Rattle.s3_meaning.specs.Inner.SheetWords.{ComeOut};
ghost use Rattle.s3_meaning.specs.Inner.LevelCorners.{level_corners};
ghost use Rattle.s3_meaning.specs.Inner.ReplyCorners.{reply_corners, file_reply_corners};
ghost use Rattle.s3_meaning.specs.Inner.LineCorners.{line_corners, carriage_corners};
ghost use Rattle.s3_meaning.specs.Inner.CalculationCorners.{calculation_corners};
ghost use Rattle.s3_meaning.specs.Inner.FileCorners.{file_corners};
ghost use Rattle.s3_meaning.specs.Inner.MatchingCorners.{matching_corners};
ghost use Rattle.s3_meaning.specs.Cycle.{again, renewed, Req};
ghost use Rattle.s3_meaning.specs.Inner.Samples.{card_lister, level_totals, card, print_line, no_date, cards};

/// The specification of a run that begins again equals its own definition: it has no bound.
pub fn nothing_is_bounded()
    ensures { (source : Source) → again source ≡ renewed source (again source) }
{}

/// Spaces move the carriage by this number of lines over pages of 66 lines, up to page 9,999, and always to a line of a page. A
/// skip moves the carriage to the line of the skip.
pub fn the_carriage_moves_by_lines()
    ensures moved { (n : ℕ) (c : Carriage) → n ≤ 66 → c.line ≤ 66 → c.page < 9999 → 66 * (spaced n c).page + (spaced n c).line ≡ 66 * c.page + c.line + n }
    ensures within { (n : ℕ) (c : Carriage) → n ≤ 66 → 1 ≤ c.line → c.line ≤ 66 → (1 ≤ (spaced n c).line) × ((spaced n c).line ≤ 66) }
    ensures skipped { (n : ℕ) (c : Carriage) → (skipped (Some n) c).line ≡ n }
{}

/// If all heads have a key, no head has a lower key than the selected one.
pub fn the_least_key_is_selected()
    ensures { (heads : List Selected) (selected : Selected) → All (λ head. IsSome (key_of head)) heads → least heads ≡ Some selected → All (λ head. is_less (key_of head) (key_of selected) ≡ false) heads }
{}

/// A worked run of the card lister over cards ABC and DEF: both are listed, and the job ends.
pub fn cards_are_listed()
    ensures asks { Req (source_of card_lister) 0 no_date [] ≡ Card }
    ensures prints { Req (source_of card_lister) 0 no_date (Found (card (0xc1 ∷ 0xc2 ∷ 0xc3 ∷ [])) ∷ []) ≡ Print 1 1 (print_line (0xc1 ∷ 0xc2 ∷ 0xc3 ∷ [])) }
    ensures prints_again { Req (source_of card_lister) 0 no_date (Found (card (0xc1 ∷ 0xc2 ∷ 0xc3 ∷ [])) ∷ Done ∷ Found (card (0xc4 ∷ 0xc5 ∷ 0xc6 ∷ [])) ∷ [])
        ≡ Print 1 2 (print_line (0xc4 ∷ 0xc5 ∷ 0xc6 ∷ [])) }
    ensures ends { Req (source_of card_lister) 0 no_date (Found (card (0xc1 ∷ 0xc2 ∷ 0xc3 ∷ [])) ∷ Done ∷ Found (card (0xc4 ∷ 0xc5 ∷ 0xc6 ∷ [])) ∷ Done ∷ Nothing ∷ [])
        ≡ End false }
{}

/// A worked run over cards A01, A02 and B05 with a total by their first column: 3 is printed for A, 5 for B, and the job ends.
pub fn totals_are_printed()
    ensures first { Req (source_of level_totals) 0 no_date (Found (card (0xc1 ∷ 0xf0 ∷ 0xf1 ∷ [])) ∷ Found (card (0xc1 ∷ 0xf0 ∷ 0xf2 ∷ [])) ∷ Found (card (0xc2 ∷ 0xf0 ∷ 0xf5 ∷ [])) ∷ [])
        ≡ Print 1 1 (print_line (0x40 ∷ 0x40 ∷ 0x40 ∷ 0xf3 ∷ [])) }
    ensures end { Req (source_of level_totals) 0 no_date (Found (card (0xc1 ∷ 0xf0 ∷ 0xf1 ∷ [])) ∷ Found (card (0xc1 ∷ 0xf0 ∷ 0xf2 ∷ [])) ∷ Found (card (0xc2 ∷ 0xf0 ∷ 0xf5 ∷ [])) ∷ Done ∷ Nothing ∷ Done ∷ [])
        ≡ End false }
{}

/// The answers that fit each request. A request for a card takes 96 bytes or none. A request for a record takes as many bytes as
/// its file's records have, or none. A request that writes into a file takes `done`, or a refusal of that file. A halt takes the
/// replies that it allows. The end of a job takes no answer.
pub fn answers_fit_their_requests()
    ensures cards { filter (fits Card) all_answers ≡ Found (replicate 96 0x40) ∷ Nothing ∷ [] }
    ensures records { filter (fits (Read cards 2)) all_answers ≡ Found (replicate 2 0x40) ∷ Nothing ∷ [] }
    ensures chained { filter (fits (Chain cards 2 (RecordNumber (pos 3)))) all_answers ≡ Found (replicate 2 0x40) ∷ Nothing ∷ [] }
    ensures appended { filter (fits (Append cards [])) all_answers ≡ Done ∷ Refused FileFull ∷ Refused KeyNotAscending ∷ [] }
    ensures added { filter (fits (Add cards [])) all_answers ≡ Done ∷ Refused DuplicateKey ∷ Refused FileFull ∷ [] }
    ensures updated { filter (fits (Update cards None [])) all_answers ≡ Done ∷ Refused KeyChanged ∷ Refused NothingToUpdate ∷ [] }
    ensures printed { filter (fits (Print 1 1 [])) all_answers ≡ Done ∷ [] }
    ensures jumps { filter (fits Jump) all_answers ≡ Done ∷ [] }
    ensures replies { map (λ code. filter (fits (Ask code)) all_answers) going_codes ≡ map (λ code. Reply 0 ∷ Reply 2 ∷ Reply 3 ∷ []) going_codes }
    ensures ending_replies { map (λ code. filter (fits (Ask code)) all_answers) ending_codes ≡ map (λ code. Reply 2 ∷ Reply 3 ∷ []) ending_codes }
    ensures ends { map (λ at_once. filter (fits (End at_once)) all_answers) (false ∷ true ∷ []) ≡ [] ∷ [] ∷ [] }
{}

/// Small runs with control levels, with the first step of a cycle and with the end of a job ask what was worked by hand.
pub fn levels_come_out()
    ensures { ComeOut level_corners }
{}

/// Small runs with replies 0, 2 and 3 to each halt of the cycle and of calculations ask what was worked by hand.
pub fn replies_come_out()
    ensures { ComeOut reply_corners }
{}

/// Small runs with replies 0, 2 and 3 to each halt at a file ask what was worked by hand.
pub fn replies_at_files_come_out()
    ensures { ComeOut file_reply_corners }
{}

/// Small runs over records whose fields are moved, and with lines that are written, make the requests that were worked by hand.
pub fn lines_come_out()
    ensures { ComeOut line_corners }
{}

/// Small runs that move the carriage and meet overflow ask what was worked by hand.
pub fn the_carriage_comes_out()
    ensures { ComeOut carriage_corners }
{}

/// Small runs of calculations, with their conditions and jumps, ask what was worked by hand.
pub fn calculations_come_out()
    ensures { ComeOut calculation_corners }
{}

/// Small runs that chain, update, add and load records ask what was worked by hand.
pub fn files_come_out()
    ensures { ComeOut file_corners }
{}

/// Small runs with matching records and with ends of files ask what was worked by hand.
pub fn matching_comes_out()
    ensures { ComeOut matching_corners }
{}
