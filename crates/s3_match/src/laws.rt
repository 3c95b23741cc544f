//! What selection, MR and the reading of files mean, in the terms of the language.

ghost use Rattle.std.specs.Prelude.{◌≡◌, ◌+◌, ◌<◌, ◌≤◌, ◌↔◌, ℕ, List, Some, None, true, false, is_some, length, slice_set};
ghost use Rattle.std.specs.List.{list_all, list_any};
ghost use Rattle.s3_lines.specs.declared.sheet.Designation.TheVariants.{Primary};
ghost use Rattle.s3_meaning.specs.Source.{Source, is_designated};
ghost use Rattle.s3_meaning.specs.Selection.{Head, InputFile, Reading, Selected, key_of, is_unread, taken, type_of, in_sequence, match_key, break_level, least, has_met_end, primary_first, select, is_matched};
ghost use Rattle.s3_meaning.specs.Cycle.{files_read, file_read, on_read, counted_read};
ghost use Rattle.s3_meaning.specs.Environment.{Environment};
ghost use Rattle.s3_meaning.specs.Runs.{Rest, Anew, halted};
ghost use Rattle.s3_meaning.specs.Requests.{Answer, Found};
ghost use Rattle.s3_meaning.specs.RecordTypes.{RecordType};
ghost use Rattle.s3_operator.specs.declared.halt_code.HaltCode.TheVariants.{OutOfSequence, UnidentifiedRecord};
ghost use Rattle.s3_program.specs.declared.program.Program.{Program};
ghost use Rattle.s3_program.specs.declared.starts.TypeStart.{TypeStart};
ghost use Rattle.s3_program.specs.Inner.Stands.{source_named};
ghost use Rattle.s3_match.specs.Inner.Types.{kind_at};
ghost use Rattle.s3_match.specs.Inner.Controls.{break_of};
ghost use Rattle.s3_match.specs.Inner.Heads.{ended, put};
ghost use Rattle.s3_match.specs.Inner.Laws.{heads_of, stands_at, IsFirstLeast, IsMatchedBySecondary, HasKey, IsFirst, has_no_key, has_last_key};
ghost use Rattle.s3_match.specs.Inner.Reading.{input_at, read_from, read_behind, on_record, is_record, AreRead, IsNextUnread};

/// If all heads have match fields, the selected head is the first one with the lowest key: each head before it has a higher key.
/// The primary file comes first, and then the secondary files in F order.
pub fn ties_go_to_the_first()
    ensures first { (heads : List Selected) (selected : Selected) → least heads ≡ Some selected → IsFirstLeast heads selected }
    ensures selected { (reading : Reading) (selected : Selected) → has_met_end reading.files ≡ false → list_all (λ head. is_some (key_of head)) (heads_of reading) ≡ true → select reading ≡ Some selected
        → IsFirstLeast (primary_first (heads_of reading)) selected }
{}

/// A head without match fields goes before all heads that have some: the first such head, in F order.
pub fn a_head_without_match_fields_goes_first()
    ensures { (reading : Reading) (selected : Selected) → has_met_end reading.files ≡ false → list_any has_no_key (heads_of reading) ≡ true → select reading ≡ Some selected → IsFirst has_no_key (heads_of reading) selected }
{}

/// At the end no record is processed if a primary head is left. Else the first head with the last primary key is processed, and
/// none if no head has it.
pub fn the_last_key_is_still_matched_at_the_end()
    ensures primary { (reading : Reading) → has_met_end reading.files ≡ true → list_any (λ head. is_designated Primary head.file) (heads_of reading) ≡ true → select reading ≡ None }
    ensures secondary { (reading : Reading) (selected : Selected) → has_met_end reading.files ≡ true → list_any (λ head. is_designated Primary head.file) (heads_of reading) ≡ false → select reading ≡ Some selected
        → IsFirst (has_last_key reading) (heads_of reading) selected }
    ensures none { (reading : Reading) → has_met_end reading.files ≡ true → list_any (has_last_key reading) (heads_of reading) ≡ false → select reading ≡ None }
    ensures some { (reading : Reading) → has_met_end reading.files ≡ true → list_any (λ head. is_designated Primary head.file) (heads_of reading) ≡ false → list_any (has_last_key reading) (heads_of reading) ≡ true → is_some (select reading) ≡ true }
{}

/// A primary is matched exactly if a secondary head has its key, a secondary exactly if it has the last primary key.
pub fn records_match_by_keys()
    ensures primary { (reading : Reading) (selected : Selected) → is_designated Primary selected.file ≡ true → (is_matched reading selected ≡ true) ↔ IsMatchedBySecondary reading selected }
    ensures secondary { (reading : Reading) (selected : Selected) → is_designated Primary selected.file ≡ false → (is_matched reading selected ≡ true) ↔ HasKey selected reading.primary_key }
{}

/// The level that breaks by the control fields that are held is the level that breaks in an environment that holds them.
pub fn levels_break_by_what_is_held()
    ensures { (e : Environment) (head : Head) → break_of e.held head.kind head.bytes ≡ break_level e head }
{}

/// After a head of one of its files is taken, a file is to be read.
pub fn a_taken_head_is_missed()
    ensures { (reading : Reading) (selected : Selected) (place : ℕ) → stands_at reading place ≡ Some selected → list_any is_unread (taken reading selected).files ≡ true }
{}

/// Files are read one after another. Files that have a head or have ended are passed over. After the first file that is to be
/// read, the others are read as before, whatever its reading puts in its place.
pub fn files_are_read_in_turn()
    ensures whole { (source : Source) (anew : Anew) (inputs : List InputFile) (go : List InputFile → Rest) → files_read source anew inputs go ≡ read_from source anew inputs 0 go }
    ensures next { (source : Source) (anew : Anew) (inputs : List InputFile) (from place : ℕ) (go : List InputFile → Rest) (e : Environment) → IsNextUnread inputs from place
        → read_from source anew inputs from go e ≡ file_read source anew (input_at inputs place) (λ input. read_from source anew (slice_set inputs place input) (place + 1) go) e }
    ensures none { (source : Source) (anew : Anew) (inputs : List InputFile) (from : ℕ) (go : List InputFile → Rest) (e : Environment) → from ≤ length inputs → AreRead inputs from (length inputs)
        → read_from source anew inputs from go e ≡ go inputs e }
{}

/// A record that was read is counted. If it is of a type and in sequence, it becomes the head of its file, and the files after it
/// are read. Any other record halts the job, and its file is read again. If there is no record, the file has ended.
pub fn an_answer_stands_at_its_file()
    ensures counted { (source : Source) (anew : Anew) (inputs : List InputFile) (place : ℕ) (bytes : List ℕ) (go : List InputFile → Rest) (e : Environment) → place < length inputs
        → on_read source anew (input_at inputs place) (read_behind source anew inputs place go) (Found bytes) e ≡ on_record source anew (slice_set inputs place (counted_read (input_at inputs place))) place bytes go e }
    ensures stands { (program : Program) (anew : Anew) (inputs : List InputFile) (place : ℕ) (start : TypeStart) (bytes : List ℕ) (go : List InputFile → Rest) (e : Environment)
        → type_of (source_named program) (input_at inputs place).file.name bytes ≡ Some (kind_at program start) → in_sequence (match_key (kind_at program start) bytes) (input_at inputs place).last_key ≡ true
        → on_record (source_named program) anew inputs place bytes go e ≡ read_from (source_named program) anew (slice_set inputs place (put program start bytes (input_at inputs place))) (place + 1) go e }
    ensures out_of_sequence { (source : Source) (anew : Anew) (inputs : List InputFile) (place : ℕ) (kind : RecordType) (bytes : List ℕ) (go : List InputFile → Rest) (e : Environment)
        → type_of source (input_at inputs place).file.name bytes ≡ Some kind → in_sequence (match_key kind bytes) (input_at inputs place).last_key ≡ false
        → on_record source anew inputs place bytes go e ≡ halted anew OutOfSequence (anew.read (input_at inputs place) (read_behind source anew inputs place go)) e }
    ensures unidentified { (source : Source) (anew : Anew) (inputs : List InputFile) (place : ℕ) (bytes : List ℕ) (go : List InputFile → Rest) (e : Environment)
        → type_of source (input_at inputs place).file.name bytes ≡ None
        → on_record source anew inputs place bytes go e ≡ halted anew UnidentifiedRecord (anew.read (input_at inputs place) (read_behind source anew inputs place go)) e }
    ensures ended { (source : Source) (anew : Anew) (inputs : List InputFile) (place : ℕ) (answer : Answer) (go : List InputFile → Rest) (e : Environment) → is_record answer ≡ false
        → on_read source anew (input_at inputs place) (read_behind source anew inputs place go) answer e ≡ read_from source anew (slice_set inputs place (ended (input_at inputs place))) (place + 1) go e }
{}
