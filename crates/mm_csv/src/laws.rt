//! The laws of the definitions of CSV. Each is the contract of a function that does nothing.

ghost use Rattle.std.specs.Prelude.{◌≡◌, ◌<◌, ◌+◌, ◌++◌, ◌∷◌, ℕ, ℤ, List, [], false, length, FitsSigned};
ghost use Rattle.std.specs.Fmt.{signed_decimal};
ghost use Rattle.std.specs.Int.{w64};
ghost use Rattle.std.specs.List.{flat_map, list_any};
ghost use Rattle.plain_tables.specs.Csv.{needs_quotes, record_text};
ghost use Rattle.plain_tables.specs.Names.{IsName};
ghost use Rattle.mm_csv.specs.BlockLaws.{BlocksReadBack, FieldsSpellIntegers};

/// An integer is written without quotes.
pub fn integers_need_no_quotes()
    ensures { (z : ℤ) → FitsSigned w64 z → needs_quotes (signed_decimal z) ≡ false }
{}

/// A name is written without quotes.
pub fn names_need_no_quotes()
    ensures { (name : List ℕ) → IsName name → needs_quotes name ≡ false }
{}

/// A record of fields that need no quotes is these fields with commas between them, one empty field alone aside.
pub fn records_without_quotes()
    ensures { (field : List ℕ) (fields : List (List ℕ)) → list_any needs_quotes (field ∷ fields) ≡ false → 0 < length field + length fields
        → record_text (field ∷ fields) ≡ field ++ (flat_map (λ f. 44 ∷ f) fields ++ 10 ∷ []) }
{}

/// A block of names and rows is read as these rows.
pub fn blocks_read_back()
    ensures { BlocksReadBack }
{}

/// A field is an integer where a command line could spell it so.
pub fn fields_spell_integers()
    ensures { FieldsSpellIntegers }
{}
