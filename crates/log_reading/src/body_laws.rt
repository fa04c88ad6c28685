ghost use Rattle.std.specs.Prelude.{◌≡◌, ◌+◌, ◌<◌, ◌^◌, ℕ, List, ◌∷◌, ◌++◌, length, Ok, Err, Some};
ghost use Rattle.base_types.specs.declared.shapes.Shape.{Shape};
ghost use Rattle.field_codec.specs.declared.formats.Format.{Format as AFormat};
ghost use Rattle.field_codec.specs.declared.formats.Format.TheVariants.{Two};
ghost use Rattle.field_codec.specs.declared.units.Numbers.TheVariants.{Logged};
ghost use Rattle.field_codec.specs.Readers.{AreBytes};
ghost use Rattle.field_codec.specs.Units.{SessionFits};
ghost use Rattle.field_codec.specs.Fields.{session_of};
ghost use Rattle.commit_log.specs.declared.records.CommitRecord.{CommitRecord as Record};
ghost use Rattle.script_tree.specs.Programs.{ProgramTree};
ghost use Rattle.program_file.specs.Programs.{Program, IsChecked, program_in, fault_place};
ghost use Rattle.program_file.specs.declared.faults.ProgramFault.{ProgramFault as Fault};
ghost use Rattle.script_check.specs.Comparison.{GoesOnFrom, compared};
ghost use Rattle.commit_log.specs.Sessions.{spelling_with_session, IsSessionBody};
ghost use Rattle.field_codec.specs.Spelling.{ProgramFits, spelling_of_session};
ghost use Rattle.commit_log.specs.declared.contents.Body.{Body as ABody};
ghost use Rattle.log_reading.specs.Entries.{Recorded, Upgraded, entry_of_body};

/// A body is read as an upgrade exactly where it is the spelling of a session that is taken, behind the greatest before it, and of the text
/// of a checked program that goes on from the one in force. The session is the one that the body names.
pub fn upgrades_are_read()
    ensures spelled { (format : AFormat) (types : ProgramTree) (shape : Shape) (last session : ℕ) → SessionFits format Logged last session
        → (p : Program) → IsChecked p → GoesOnFrom types p.types
        → entry_of_body format types shape last (spelling_with_session format session (ABody.Upgrade p.text)) ≡ Ok (Upgraded p) }
    ensures read { (format : AFormat) (types : ProgramTree) (shape : Shape) (last : ℕ) (body : List ℕ) (p : Program) → AreBytes body
        → entry_of_body format types shape last body ≡ Ok (Upgraded p)
        → IsSessionBody format Logged shape last (session_of format body) (ABody.Upgrade p.text) body × IsChecked p × GoesOnFrom types p.types }
{}

/// A body is read as records exactly where it is theirs under the shape of the program in force, behind the session that it names.
pub fn records_are_read()
    ensures recorded { (format : AFormat) (types : ProgramTree) (shape : Shape) (last session : ℕ) (body : List ℕ) (records : List Record)
        → IsSessionBody format Logged shape last session (ABody.Records records) body → entry_of_body format types shape last body ≡ Ok (Recorded records) }
    ensures records { (format : AFormat) (types : ProgramTree) (shape : Shape) (last : ℕ) (body : List ℕ) (records : List Record) → AreBytes body
        → entry_of_body format types shape last body ≡ Ok (Recorded records)
        → IsSessionBody format Logged shape last (session_of format body) (ABody.Records records) body }
{}

/// Whatever bytes follow: where the session isn't taken, it is named; else, where an upgrade's text is no program, its own fault. The text
/// begins 8 bytes behind the session.
pub fn first_damage_is_named()
    ensures session { (types : ProgramTree) (shape : Shape) (last session : ℕ) (behind : List ℕ) → session < 2 ^ 64
        → (SessionFits Two Logged last session → ⊥) → entry_of_body Two types shape last (spelling_of_session Two session ++ behind) ≡ Err 0 }
    ensures text { (format : AFormat) (types : ProgramTree) (shape : Shape) (last session : ℕ) → SessionFits format Logged last session
        → (text behind : List ℕ) (fault : Fault) → ProgramFits text → program_in text ≡ Err fault
        → entry_of_body format types shape last (spelling_with_session format session (ABody.Upgrade text) ++ behind)
        ≡ Err (length (spelling_of_session format session) + 8 + fault_place fault) }
{}

/// Whatever bytes follow, of an upgrade in a session that is taken: where its types don't go on, the name's place is damaged first; and only
/// else the first byte that follows.
pub fn later_damage_is_named()
    ensures name { (format : AFormat) (types : ProgramTree) (shape : Shape) (last session : ℕ) → SessionFits format Logged last session
        → (news : ProgramTree) (text behind : List ℕ) (at : ℕ) → ProgramFits text → program_in text ≡ Ok news → compared types news (length text) ≡ Some at
        → entry_of_body format types shape last (spelling_with_session format session (ABody.Upgrade text) ++ behind)
        ≡ Err (length (spelling_of_session format session) + 8 + at) }
    ensures behind { (format : AFormat) (types : ProgramTree) (shape : Shape) (last session : ℕ) → SessionFits format Logged last session
        → (news : ProgramTree) (text more : List ℕ) (byte : ℕ) → ProgramFits text → program_in text ≡ Ok news → GoesOnFrom types news
        → entry_of_body format types shape last (spelling_with_session format session (ABody.Upgrade text) ++ byte ∷ more)
        ≡ Err (length (spelling_of_session format session) + 8 + length text) }
{}
