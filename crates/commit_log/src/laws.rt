ghost use Rattle.std.specs.Prelude.{◌≡◌, ◌≤◌, true, ℕ, List, [], ◌∷◌, ◌++◌, Option, take, drop};
ghost use Rattle.std.specs.Int.{w64, to_le_bytes};
ghost use Rattle.base_types.specs.declared.calls.GrainId.{GrainId as AGrain};
ghost use Rattle.base_types.specs.declared.shapes.Shape.{Shape};
ghost use Rattle.field_codec.specs.declared.formats.Format.{Format as AFormat};
ghost use Rattle.field_codec.specs.declared.formats.Format.TheVariants.{One, Two};
ghost use Rattle.field_codec.specs.SpellingsApart.{AreApart};
ghost use Rattle.field_codec.specs.declared.units.Numbers.{Numbers as ANumbers};
ghost use Rattle.field_codec.specs.declared.units.Numbers.TheVariants.{Free, Logged};
ghost use Rattle.field_codec.specs.Units.{SessionFits, may_be_parent};
ghost use Rattle.gate_block.specs.Blocks.{block_of};
ghost use Rattle.commit_log.specs.Spelling.{spelling_of_write, WriteFits, spelling_of_record, RecordFits, spelling_of_body, RecordsFit};
ghost use Rattle.commit_log.specs.Agreement.{Agrees, AreLogged};
ghost use Rattle.commit_log.specs.Checkpoints.{body_of_piece, PieceFits, IsPieceBody};
ghost use Rattle.commit_log.specs.Contents.{IsContentIn};
ghost use Rattle.commit_log.specs.Sessions.{spelling_with_session, IsSessionBody, body_with_session};
ghost use Rattle.commit_log.specs.Examples.{first_deposit, first_block, first_old_block};
ghost use Rattle.commit_log.specs.UpgradeExample.{small_text, small_block};
ghost use Rattle.commit_log.specs.declared.records.CommitRecord.{CommitRecord as Record};
ghost use Rattle.commit_log.specs.declared.records.CheckpointHead.{CheckpointHead as AHead};
ghost use Rattle.commit_log.specs.declared.records.CheckpointPiece.{CheckpointPiece as APiece};
ghost use Rattle.commit_log.specs.declared.contents.Body.{Body as ABody};

/// No record's spelling begins another's, and so it is with writes, the records of a body, and, in each format, the blocks of a session
/// and records and the pieces of a checkpoint.
pub fn spellings_are_apart()
    ensures writes { AreApart spelling_of_write WriteFits }
    ensures records { (format : AFormat) → AreApart spelling_of_record (RecordFits format) }
    ensures bodies { (format : AFormat) → AreApart spelling_of_body (RecordsFit format) }
    ensures blocks { (format : AFormat) → AreApart {A = ℕ × List Record} (λ x. block_of (spelling_with_session format x.0 (ABody.Records x.1)))
        (λ x. SessionFits format Free 0 x.0 × RecordsFit format x.1) }
    ensures pieces { (format : AFormat) → AreApart (body_of_piece format) (PieceFits format) }
{}

/// No body's spelling begins another's, whether it has records or a program's text; so a body tells its session and what it says.
pub fn bodies_are_apart()
    ensures { (format : AFormat) (numbers : ANumbers) (shape : Shape) (last : ℕ) → AreApart {A = ℕ × ABody} (λ x. spelling_with_session format x.0 x.1)
        (λ x. SessionFits format numbers last x.0 × IsContentIn format numbers shape x.1) }
{}

/// In each format the reading of a log gives what the one that takes any number gives, as `decode_body`, unless it names a place before
/// that one's fault where eight bytes spell no unit's number of a log. A body that this one takes, and whose session, units' and
/// parents' numbers are a log's, is read by both.
pub fn readings_agree()
    ensures agree { (format : AFormat) (shape : Shape) (last : ℕ) (body : List ℕ)
        → Agrees body (body_with_session format Logged shape last body) (body_with_session format Free shape last body) }
    ensures sound { (format : AFormat) (shape : Shape) (last session : ℕ) (content : ABody) (body : List ℕ)
        → IsSessionBody format Free shape last session content body → may_be_parent Logged session ≡ true → AreLogged content
        → IsSessionBody format Logged shape last session content body }
{}

/// A body of format 1 counts as one of session 1. With that session before it, it is a body of format 2 that says the same; a piece of a
/// checkpoint is one with the session behind its first 17 bytes.
pub fn bodies_migrate()
    ensures spelled { (session before : ℕ) (content : ABody) → spelling_with_session Two session content
        ≡ to_le_bytes w64 session ++ spelling_with_session One before content }
    ensures body { (shape : Shape) (last before session : ℕ) (content : ABody) (body : List ℕ) → last ≤ 1
        → IsSessionBody One Logged shape before session content body → IsSessionBody Two Logged shape last session content (to_le_bytes w64 1 ++ body) }
    ensures piece { (shape : Shape) (first : Option AHead) (last : Option AGrain) (piece : APiece) (body : List ℕ)
        → IsPieceBody One shape first last piece body → IsPieceBody Two shape first last piece (take 17 body ++ (to_le_bytes w64 1 ++ drop 17 body)) }
{}

/// The block that `docs/FORMATS.md` shows is the spelling of the first deposit's record in session 1; and so was that of format 1.
pub fn first_deposit_is_spelled()
    ensures now { block_of (spelling_with_session Two 1 (ABody.Records (first_deposit ∷ []))) ≡ first_block }
    ensures before { block_of (spelling_with_session One 1 (ABody.Records (first_deposit ∷ []))) ≡ first_old_block }
{}

/// The block of an upgrade in session 2 to a program of one type without fields or methods.
pub fn small_upgrade_is_spelled()
    ensures { block_of (spelling_with_session Two 2 (ABody.Upgrade small_text)) ≡ small_block }
{}
