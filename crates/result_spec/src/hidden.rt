// The lines of a file behind an anonymiser, from what its source gave.
ghost use Rattle.std.specs.Prelude.{[], ◌∷◌};
ghost use Rattle.text_spec.specs.Builtin.{builtin_rows};
ghost use Rattle.run_spec.specs.Examples.{stream_of};
ghost use Rattle.result_spec.specs.Result.{IsRunResult};
ghost use Rattle.result_spec.specs.Hidden.{cut_lines, hiding, narrow_row, replaced_lines, three_addresses, wide_row};
ghost use Rattle.result_spec.specs.TwoFiles.{three_arrivals};

/// Rows 10.0.0.0/8 to 192.0.0.0 and 10.1.0.0/16 to 198.51.0.0, in either order: of those that an address agrees with the one
/// with the most bits decides, and an address that agrees with none stays. Without rows the bits past the first 24 are 0.
pub fn an_anonymiser_changes_the_lines_of_a_file()
    ensures replaced { IsRunResult (hiding 32 (wide_row ∷ narrow_row ∷ [])) builtin_rows (stream_of three_addresses ∷ []) three_arrivals 0 replaced_lines }
    ensures other_order { IsRunResult (hiding 32 (narrow_row ∷ wide_row ∷ [])) builtin_rows (stream_of three_addresses ∷ []) three_arrivals 0 replaced_lines }
    ensures cut { IsRunResult (hiding 24 []) builtin_rows (stream_of three_addresses ∷ []) three_arrivals 0 cut_lines }
{}
