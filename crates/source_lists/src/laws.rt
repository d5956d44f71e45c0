//! Laws over the definitions, for all sources. Each function does nothing, and takes no memory.
ghost use Rattle.std.specs.Prelude.{◌≡◌, ◌<◌, ◌^◌, ◌++◌, ℕ, false, List, All};
ghost use Rattle.run_options.specs.declared.choices.Naming.{Naming};
ghost use Rattle.run_options.specs.declared.choices.Naming.TheVariants as naming;
ghost use Rattle.run_options.specs.declared.choices.Pick.{Pick};
ghost use Rattle.run_options.specs.declared.formats.Format.{Format};
ghost use Rattle.folded_lines.specs.LastNames.{last_ends_in_number};
ghost use Rattle.folded_lines.specs.Lines.{columns, ends_in_number};
ghost use Rattle.folded_lines.specs.ReadingBack.{IsPlain};
ghost use Rattle.profile_tables.specs.Naming.{address_frame, line_suffix};
ghost use Rattle.source_lists.specs.Sources.{read_bytes};

/// A sample of a source of either format can be written as a folded line and read back, but where its
/// last name ends in a space or tab and a number.
pub fn samples_read_back()
    ensures { (format : Format) (bytes : List ℕ) (pick : Pick) (naming : Naming)
        → All (λ sample. last_ends_in_number sample.stack ≡ false → IsPlain sample)
        (read_bytes format bytes pick naming).samples }
{}

/// A frame of a profile that is named with its line, or by its address, doesn't end in a space or tab and
/// a number.
pub fn lines_and_addresses_read_back()
    ensures lines { (name : List ℕ) (line : ℕ) → 0 < line → line < 2 ^ 63
        → ends_in_number (columns (name ++ line_suffix naming.Lines line)) ≡ false }
    ensures addresses { (address : ℕ) → ends_in_number (columns (address_frame address)) ≡ false }
{}
