//! What the words of the other contracts mean: laws over the definitions alone. The functions do nothing.

ghost use Rattle.std.specs.Prelude.{◌≡◌, ℕ, ◌^◌, ◌<◌, ◌≤◌, List, [], ◌++◌, length};
ghost use Rattle.wire_fields.specs.Varint.{IsVarintOf};
ghost use Rattle.wire_fields.specs.Field.{WireField};
ghost use Rattle.wire_fields.specs.Spelling.{IsFieldOf, Spells, SpellsNumbers};
ghost use Rattle.wire_fields.specs.Reading.{Left, IsReadingOfFields, IsReadingOfNumbers, fields_of, numbers_of};

/// No field's spelling is a proper prefix of another, and no bytes spell two lists of fields.
pub fn fields_have_one_reading()
    ensures prefix { (field other : WireField) (spelling longer more : List ℕ) →
        IsFieldOf field spelling → IsFieldOf other longer → longer ≡ spelling ++ more → more ≡ [] }
    ensures one_list { (fields others : List WireField) (bytes : List ℕ) →
        Spells fields bytes → Spells others bytes → fields ≡ others }
{}

/// No varint is a proper prefix of another, no bytes spell two lists of numbers, and each number takes 64 bits at most.
pub fn numbers_have_one_reading()
    ensures prefix { (number other : ℕ) (spelling longer more : List ℕ) →
        IsVarintOf number spelling → IsVarintOf other longer → longer ≡ spelling ++ more
        → more ≡ [] }
    ensures one_list { (numbers others : List ℕ) (bytes : List ℕ) →
        SpellsNumbers numbers bytes → SpellsNumbers others bytes → numbers ≡ others }
    ensures below { (number : ℕ) (spelling : List ℕ) → IsVarintOf number spelling
        → number < 2 ^ 64 }
{}

/// `fields_of` is the one reading: the fields of the longest front that spells a list, then the end or the first fault.
pub fn fields_are_those_spelled()
    ensures reading { (bytes : List ℕ) → IsReadingOfFields bytes (fields_of bytes) }
    ensures only { (bytes : List ℕ) (left : Left WireField) → IsReadingOfFields bytes left
        → left ≡ fields_of bytes }
    ensures at_most { (bytes : List ℕ) → length (fields_of bytes).items ≤ length bytes }
{}

/// `numbers_of` is the one reading of a packed run.
pub fn numbers_are_those_spelled()
    ensures reading { (bytes : List ℕ) → IsReadingOfNumbers bytes (numbers_of bytes) }
    ensures only { (bytes : List ℕ) (left : Left ℕ) → IsReadingOfNumbers bytes left
        → left ≡ numbers_of bytes }
    ensures at_most { (bytes : List ℕ) → length (numbers_of bytes).items ≤ length bytes }
{}
