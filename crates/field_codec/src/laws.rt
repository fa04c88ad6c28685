ghost use Rattle.std.specs.Prelude.{◌≡◌, ℕ, List, ◌++◌};
ghost use Rattle.field_codec.specs.SpellingsApart.{AreApart};
ghost use Rattle.field_codec.specs.Formats.{field_limit};
ghost use Rattle.field_codec.specs.declared.formats.Format.{Format as AFormat};
ghost use Rattle.field_codec.specs.Examples.{first_version, first_bytes};
ghost use Rattle.field_codec.specs.Spelling.{spelling_of_value, ValueFits, spelling_of_values, ValuesFit, spelling_of_call, CallFits, spelling_of_version, VersionFits, spelling_of_origin, OriginFits, spelling_of_outcome, AnswerFits, spelling_of_text, TextFits, spelling_of_program, ProgramFits};

/// No value's spelling begins another's, and so it is with all that has a spelling here.
pub fn spellings_are_apart()
    ensures texts { (format : AFormat) → AreApart spelling_of_text (TextFits format) }
    ensures values { (format : AFormat) → AreApart spelling_of_value (ValueFits format) }
    ensures states { (format : AFormat) → AreApart spelling_of_values (ValuesFit format (field_limit format)) }
    ensures calls { (format : AFormat) → AreApart spelling_of_call (CallFits format) }
    ensures versions { (format : AFormat) → AreApart spelling_of_version (VersionFits format) }
    ensures origins { AreApart spelling_of_origin OriginFits }
    ensures outcomes { (format : AFormat) → AreApart spelling_of_outcome (AnswerFits format) }
    ensures programs { AreApart spelling_of_program ProgramFits }
{}

/// The version that `docs/FORMATS.md` shows has the bytes that stand there.
pub fn first_version_is_spelled()
    ensures { spelling_of_version first_version ≡ first_bytes }
{}
