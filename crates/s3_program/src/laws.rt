//! What the definitions say of themselves: laws, and worked programs.

ghost use Rattle.std.specs.Prelude.{◌≡◌, true, false, filter_map, List, Option, None, ◌++◌, ℕ, ◌<◌};
ghost use Rattle.std.specs.List.{list_any, list_all};
ghost use Rattle.s3_meaning.specs.Source.{reserved_shapes, shape_in, file_named};
ghost use Rattle.s3_program.specs.Shapes.{same_shape};
ghost use Rattle.std.specs.Map.{lookup, keys_of};
ghost use Rattle.s3_cards.specs.declared.name.Name.{Name};
ghost use Rattle.s3_cards.specs.Names.{no_name, same_name};
ghost use Rattle.s3_lines.specs.declared.sheet.Shape.{Shape};
ghost use Rattle.s3_program.specs.Inner.Distinct.{are_distinct};
ghost use Rattle.s3_program.specs.Inner.Given.{firsts};
ghost use Rattle.s3_program.specs.Jumps.{ends_chain};
ghost use Rattle.s3_program.specs.declared.call.Call.{Call};
ghost use Rattle.s3_program.specs.Inner.Valid.{is_valid, tables_of, begin_reserved};
ghost use Rattle.s3_program.specs.Inner.Stands.{parts_of, source_named};
ghost use Rattle.s3_program.specs.Inner.Starts.{type_starts, output_starts};
ghost use Rattle.s3_program.specs.Inner.Started.{type_at, output_at};
ghost use Rattle.s3_program.specs.declared.program.Program.{Program};
ghost use Rattle.s3_program.specs.Inner.Samples.{whole, wrong_slots, wrong_tables, wrong_lines};

/// A program with every sheet and every operation is valid; with a wrong slot, a wrong table or a wrong line it isn't.
pub fn worked_programs()
    ensures valid { is_valid whole ≡ true }
    ensures slots { list_any is_valid wrong_slots ≡ false }
    ensures tables { list_any is_valid wrong_tables ≡ false }
    ensures lines { list_any is_valid wrong_lines ≡ false }
{}

/// The record types and the output lines of the source that a program represents start at the places of the tables.
pub fn the_source_starts_there()
    ensures types { (program : Program) → filter_map (type_at (tables_of (parts_of program)) program.inputs.items) (type_starts program.files.items program.inputs.items) ≡ (source_named program).types }
    ensures outputs { (program : Program) → filter_map (output_at (tables_of (parts_of program)) program.outputs.items) (output_starts program.files.items program.outputs.items) ≡ (source_named program).outputs }
{}

/// Each file of a program has a name. The blank name finds no file; a line card without a file has it if no line card with a file
/// comes before it.
pub fn files_have_names()
    ensures { (program : Program) → file_named (source_named program) no_name ≡ None }
{}

/// A name has what its first entry gives it. No name is twice among the first entries, which stay the first ones with the
/// reserved fields before them.
pub fn first_entries_count()
    ensures found { (name : Name) (entries : List (Name × Shape)) → lookup (same_name name) (firsts entries) ≡ lookup (same_name name) entries }
    ensures distinct { (entries : List (Name × Shape)) → are_distinct (keys_of (firsts entries)) ≡ true }
    ensures own { (entries : List (Name × Shape)) → are_distinct (keys_of entries) ≡ true → firsts entries ≡ entries }
    ensures shapes { (entries : List (Name × Shape)) → list_all (λ field. same_shape (shape_in entries field.0) field.1) (firsts entries) ≡ true }
    ensures reserved { (entries : List (Name × Shape)) → begin_reserved (firsts (reserved_shapes ++ entries)) ≡ true }
{}

/// If no chain of eight calls ends in a subroutine, every chain that ends in it has fewer than eight calls.
pub fn calls_go_eight_deep()
    ensures { (calls : List Call) (n : ℕ) (subroutine : Option ℕ) → ends_chain calls 8 subroutine ≡ false → ends_chain calls n subroutine ≡ true → n < 8 }
{}
