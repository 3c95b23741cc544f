//! What the definitions say of themselves: worked examples, and the lines that start at the places of a program.
ghost use Rattle.std.specs.Prelude.{◌≡◌, ◌∷◌, [], true, pos, negsuc, Some, is_some, filter, filter_map, slice_get, ℕ};
ghost use Rattle.s3_lines.specs.declared.sheet.OutputForm.TheVariants.{Plain, Packed, Edited};
ghost use Rattle.s3_meaning.specs.OutputLines.{Output};
ghost use Rattle.s3_meaning.specs.Carriage.{to_print};
ghost use Rattle.s3_program.specs.declared.program.Program.{Program};
ghost use Rattle.s3_lines.specs.declared.sheet.FileLine.{FileLine};
ghost use Rattle.s3_meaning.specs.Environment.{Environment, put_number};
ghost use Rattle.s3_meaning.specs.Names.{page, umonth};
ghost use Rattle.s3_meaning.specs.Output.{counted, number_bytes};
ghost use Rattle.s3_meaning.specs.Source.{Source, file_named};
ghost use Rattle.s3_program.specs.declared.starts.OutputStart.{OutputStart};
ghost use Rattle.s3_program.specs.declared.starts.Walk.{Walk};
ghost use Rattle.s3_program.specs.Inner.Starts.{walked, is_walked};
ghost use Rattle.s3_program.specs.Inner.Started.{output_at};
ghost use Rattle.s3_program.specs.Inner.Stands.{source_named};
ghost use Rattle.s3_operations.specs.Inner.Fits.{tables};
ghost use Rattle.s3_output.specs.Inner.Lines.{IsStart, IsLineAt, file_of};
ghost use Rattle.s3_output.specs.Inner.Rows.{at, past, skip_to, printed, credit, no_lines};

/// A page has 66 lines; line 61 is reached from line 60 with overflow, which a skip to a line past 60 sets too, and a skip to
/// the next page doesn't. Page 0 comes after page 9,999.
pub fn worked_rows_of_the_carriage()
    ensures page { printed 66 (at 1 1) ≡ past 2 1 }
    ensures sixty { printed 59 (at 1 1) ≡ at 1 60 }
    ensures at_sixty { to_print (skip_to 60) (at 1 5) ≡ past 1 60 }
    ensures stays { to_print (skip_to 62) (at 1 10) ≡ past 1 62 }
    ensures turns { to_print (skip_to 6) (at 1 61) ≡ at 2 6 }
    ensures last_page { to_print (skip_to 1) (at 9999 60) ≡ at 0 1 }
{}

/// PAGE is printed as under Z, so a zero is blank, and page 0 comes after page 9,999. A zero has no sign, and a negative number
/// has its sign in its last byte or after its digits.
pub fn worked_rows_of_numbers()
    ensures page_seven { (source : Source) → number_bytes source page Plain (pos 7) ≡ 0x40 ∷ 0x40 ∷ 0x40 ∷ 0xf7 ∷ [] }
    ensures page_zero { (source : Source) → number_bytes source page Plain (pos 0) ≡ 0x40 ∷ 0x40 ∷ 0x40 ∷ 0x40 ∷ [] }
    ensures last_page { (e : Environment) → (counted page (put_number page (pos 9999) e)).numbers page ≡ pos 0 }
    ensures minus_seven { number_bytes no_lines umonth Plain (negsuc 6) ≡ 0xf0 ∷ 0xd7 ∷ [] }
    ensures zero { number_bytes no_lines umonth Plain (pos 0) ≡ 0xf0 ∷ 0xf0 ∷ [] }
    ensures packed { number_bytes no_lines page Packed (negsuc 11) ≡ 0x00 ∷ 0x01 ∷ 0x2d ∷ [] }
    ensures packed_zero { number_bytes no_lines umonth Packed (pos 0) ≡ 0x00 ∷ 0x0f ∷ [] }
    ensures edited { number_bytes no_lines umonth (Edited credit) (negsuc 6) ≡ 0x40 ∷ 0xf7 ∷ 0xc3 ∷ 0xd9 ∷ [] }
    ensures edited_zero { number_bytes no_lines umonth (Edited credit) (pos 0) ≡ 0x40 ∷ 0xf0 ∷ 0x40 ∷ 0x40 ∷ [] }
{}

/// The lines of the source that are written together start at the places of the walk, in their order. Each of these places is a
/// start of the program, and its file is the file of its slot.
pub fn lines_start_there()
    ensures walked { (program : Program) (walk : Walk) → filter_map (output_at (tables program) program.outputs.items) (walked walk program.files.items program.outputs.items)
        ≡ filter (λ line. is_walked walk line.kind) (source_named program).outputs }
    ensures starts { (program : Program) (walk : Walk) (number : ℕ) (start : OutputStart) → slice_get (walked walk program.files.items program.outputs.items) number ≡ Some start → IsStart program start }
    ensures lines { (program : Program) (start : OutputStart) → IsStart program start → is_some (output_at (tables program) program.outputs.items start) ≡ true }
    ensures files { (program : Program) (start : OutputStart) (line : Output) (file : FileLine) → IsLineAt program start line → file_of program start ≡ Some file
        → file_named (source_named program) line.file ≡ Some file }
{}
