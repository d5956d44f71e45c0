//! What holds of the definitions.

ghost use Rattle.std.specs.Prelude.{◌≡◌, ◌≢◌, ◌≤◌, ◌++◌, ◌∷◌, [], ℕ, Bool, Option, None, Some, false, List, All, length, sum_by};
ghost use Rattle.std.specs.List.{concat};
ghost use Rattle.sample_tables.specs.Samples.{total_weight};
ghost use Rattle.sample_tables.specs.declared.samples.TheConstants.{WEIGHT_LIMIT};
ghost use Rattle.sample_tables.specs.declared.samples.Sample.{Sample};
ghost use Rattle.stack_core.specs.Prefixes.{IsPrefixOf};
ghost use Rattle.stack_core.specs.Reading.{Rest};
ghost use Rattle.stack_core.specs.declared.endings.SourceEnd.TheVariants as ends;
ghost use Rattle.folded_lines.specs.LastNames.{last_ends_in_number, is_open};
ghost use Rattle.folded_lines.specs.Lines.{read_line, text_lines};
ghost use Rattle.folded_lines.specs.Reading.{begins_compressed, is_ignored, read_folded};
ghost use Rattle.folded_lines.specs.ReadingBack.{IsPlain, text_of};
ghost use Rattle.folded_lines.specs.Streams.{ReadsAsTexts, StreamGives};
ghost use Rattle.folded_lines.specs.StrictReading.{fault_of_ending, strict_fault};
ghost use Rattle.folded_lines.specs.StrictStreams.{IsTellable, StrictStreamGives, read_strictly, strict_ending_fault};
ghost use Rattle.folded_lines.specs.TextParts.{IsWholeLines, AreCutAtLines, IsFaultless, samples_of_parts, ReadsAsParts};

/// Text of written lines reads back as the same samples, with none ignored, where no name holds `;` or
/// a line feed, no stack ends in an empty name or in a name that ends in a space or tab and a number, no
/// stack has more than 4,096 names, and the weights add up to at most 2^56-1.
pub fn lines_read_back()
    ensures { (samples : List Sample) → All IsPlain samples
        → sum_by (λ sample. sample.weight) samples ≤ WEIGHT_LIMIT
        → read_folded (text_of samples) ≡ record { samples = samples; ending = ends.Clean 0 } }
{}

/// A sample that is read can be written and read back, but where its last name ends in a space or tab
/// and a number. Only a line whose names end in `;` gives such a sample.
pub fn names_read_back()
    ensures plain { (bytes : List ℕ) → All (λ sample.
        last_ends_in_number sample.stack ≡ false → IsPlain sample) (read_folded bytes).samples }
    ensures closed { (bytes : List ℕ) → All (λ line. is_open line ≡ false) (text_lines bytes)
        → All IsPlain (read_folded bytes).samples }
{}

/// Text that is cut at line ends reads as its parts do, one after another. It holds where all of the
/// whole is read and no part begins as gzip does, and where all of each part is read and the weights of
/// all add up to at most 2^56-1.
pub fn text_reads_as_its_parts()
    ensures two { (one other : List ℕ) → IsWholeLines one → begins_compressed other ≡ false
        → IsFaultless (one ++ other) → ReadsAsParts (one ++ other) (one ∷ other ∷ []) }
    ensures whole { (parts : List (List ℕ)) → AreCutAtLines parts
        → All (λ part. begins_compressed part ≡ false) parts
        → IsFaultless (concat parts) → ReadsAsParts (concat parts) parts }
    ensures parts { (parts : List (List ℕ)) → AreCutAtLines parts → All IsFaultless parts
        → total_weight (samples_of_parts parts) ≤ WEIGHT_LIMIT
        → ReadsAsParts (concat parts) parts }
{}

/// Text that has no fault where it is read strictly has a sample, and no line of it is ignored. Text that is not empty, of which no line
/// is ignored, reads strictly as it does otherwise: to the same fault, or to none.
pub fn strict_text_reads_the_same()
    ensures accepted { (bytes : List ℕ) → strict_fault bytes ≡ None
        → ((read_folded bytes).samples ≢ []) × ((read_folded bytes).ending ≡ ends.Clean 0) }
    ensures same { (bytes : List ℕ) → bytes ≢ []
        → All (λ line. is_ignored (read_line line) ≡ false) (text_lines bytes)
        → strict_fault bytes ≡ fault_of_ending (read_folded bytes).ending }
{}

/// A text whose first ignored line ends it tells its first fault, where it is read strictly, by how many samples it gives and by its ending.
/// Its samples are those in front of what it gives otherwise, and all of it where no line is ignored.
pub fn strict_text_ends_at_its_fault()
    ensures fault { (bytes : List ℕ)
        → strict_ending_fault (length (read_strictly bytes).samples) (read_strictly bytes).ending ≡ strict_fault bytes }
    ensures front { (bytes : List ℕ) → IsPrefixOf (read_strictly bytes).samples (read_folded bytes).samples }
    ensures same { (bytes : List ℕ) → All (λ line. is_ignored (read_line line) ≡ false) (text_lines bytes)
        → read_strictly bytes ≡ read_folded bytes }
{}

/// What comes by a stream of known bytes reads as they do, unless a read fails. Then the samples are those in front of theirs. A stream
/// may always give something, where a read may fail, or its bytes are known and fewer than 2^64. The samples are within the limits of a
/// source.
pub fn streams_read_as_texts()
    ensures { ReadsAsTexts StreamGives read_folded }
{}

/// The same of a strict reader: what it gives is what the known bytes give up to their first ignored line.
pub fn strict_streams_read_as_texts()
    ensures texts { ReadsAsTexts StrictStreamGives read_strictly }
    ensures fault { (bytes : List ℕ) (is_sure : Bool) (rest : Rest) → StrictStreamGives (Some bytes) is_sure rest
        → ((after : ℕ) → rest.ending ≢ ends.Stopped after)
        → strict_ending_fault (length rest.samples) rest.ending ≡ strict_fault bytes }
    ensures tellable { (known : Option (List ℕ)) (is_sure : Bool) (rest : Rest) → StrictStreamGives known is_sure rest
        → IsTellable (length rest.samples) rest.ending }
{}
