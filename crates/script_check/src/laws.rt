ghost use Rattle.std.specs.Prelude.{◌≡◌, map, ◌≢◌, ◌<◌, ◌++◌, ◌⊎◌, ◌↔◌, ℕ, List, [], ◌∷◌, length, get_or, Some, None, pos, codes};
ghost use Rattle.script_tree.specs.Programs.{ProgramTree};
ghost use Rattle.script_tree.specs.Names.{names_in_program};
ghost use Rattle.script_check.specs.Mentions.{program_names};
ghost use Rattle.base_types.specs.declared.calls.Value.{Value as AValue};
ghost use Rattle.base_types.specs.Lists.{Member};
ghost use Rattle.script_tree.specs.declared.programs.FieldDecl.{FieldDecl as Field};
ghost use Rattle.script_check.specs.Programs.{field_names};
ghost use Rattle.script_check.specs.AcceptedPrograms.{AreNamesApart, IsAcceptedProgram};
ghost use Rattle.script_check.specs.Shapes.{value_of};
ghost use Rattle.script_check.specs.Comparison.{GoesOnFrom, GoOnInTurn, last_program, compared, IsRefusedAt};
ghost use Rattle.script_check.specs.Carrying.{carried_fields, carried_state, carried_along, fields_of_kind, initials};
ghost use Rattle.script_check.specs.ChangedPrograms.{balance_field, limit_field, bank_of, only_type, one_number, two_numbers};

/// A check looks at each name of a program, in the order of the text, once: whatever the tree, and whether a name
/// before it is at fault or not.
pub fn each_name_is_mentioned()
    ensures { (types : ProgramTree) → map (λ m. m.name) (program_names types)
        ≡ names_in_program types }
{}

/// A program may follow another exactly where its types begin with the other's names, in their order: so each program may follow
/// itself and may be followed by one with types more, and what may follow a follower may follow the first. The last of programs that
/// go on from one another goes on from the first, so a type's number means the same type in all that come after it.
pub fn programs_go_on()
    ensures accepts { (old new : ProgramTree) (end : ℕ) → (compared old new end ≡ None ↔ GoesOnFrom old new) }
    ensures refuses { (old new : ProgramTree) (end at : ℕ) → compared old new end ≡ Some at → IsRefusedAt old new end at }
    ensures same { (old : ProgramTree) → GoesOnFrom old old }
    ensures further { (old more : ProgramTree) → GoesOnFrom old (old ++ more) }
    ensures on { (one two three : ProgramTree) → GoesOnFrom one two → GoesOnFrom two three → GoesOnFrom one three }
    ensures along { (first : ProgramTree) (later : List ProgramTree) → GoOnInTurn first later → GoesOnFrom first (last_program first later) }
    ensures parts { (first : ProgramTree) (some more : List ProgramTree)
        → (GoOnInTurn first (some ++ more) ↔ (GoOnInTurn first some × GoOnInTurn (last_program first some) more)) }
    ensures types { (old new : ProgramTree) (kind : ℕ) → GoesOnFrom old new → kind < length old → kind < length new }
{}

/// A carried state has the new type's number of fields, and no value but those that were there and the new fields' initial ones.
/// Nothing changes under the same fields, nor under the same program.
pub fn states_are_carried()
    ensures count { (olds news : List Field) (values : List AValue) → length (carried_fields olds news values) ≡ length news }
    ensures only { (olds news : List Field) (values : List AValue) (v : AValue) → Member v (carried_fields olds news values)
        → Member v values ⊎ Member v (initials news) }
    ensures same { (fields : List Field) (values : List AValue) → AreNamesApart (field_names fields)
        → length values ≡ length fields → carried_fields fields fields values ≡ values }
    ensures again { (program : ProgramTree) (kind : ℕ) (values : List AValue) → IsAcceptedProgram program
        → length values ≡ length (fields_of_kind program kind) → carried_state program program kind values ≡ values }
{}

/// A field that the old type has keeps its value, whatever its place in the new one. Another has its initial value.
pub fn fields_keep_their_values()
    ensures kept { (olds news : List Field) (values : List AValue) (i j : ℕ) (f : Field) (v : AValue)
        → AreNamesApart (field_names olds) → i < length olds → j < length news → length values ≡ length olds
        → (get_or olds i f).name.text ≡ (get_or news j f).name.text
        → get_or (carried_fields olds news values) j v ≡ get_or values i v }
    ensures added { (olds news : List Field) (values : List AValue) (j : ℕ) (f : Field) (v : AValue) → j < length news
        → ((i : ℕ) → i < length olds → (get_or olds i f).name.text ≢ (get_or news j f).name.text)
        → get_or (carried_fields olds news values) j v ≡ value_of (get_or news j f).initial }
{}

/// Carrying along programs is carrying along the first of them and then along the rest. In the end a state has the last program's number
/// of fields.
pub fn states_go_along()
    ensures parts { (first : ProgramTree) (some more : List ProgramTree) (kind : ℕ) (values : List AValue)
        → carried_along first (some ++ more) kind values
        ≡ carried_along (last_program first some) more kind (carried_along first some kind values) }
    ensures counts { (first : ProgramTree) (later : List ProgramTree) (kind : ℕ) (values : List AValue)
        → length values ≡ length (fields_of_kind first kind)
        → length (carried_along first later kind values) ≡ length (fields_of_kind (last_program first later) kind) }
{}

/// The bank's account with a limit more, and programs that may not follow the bank. A field that one program drops and the next one
/// has again begins anew, so carrying to the second of two programs isn't carrying to the first and then to it: a state goes through
/// each later program in turn.
pub fn carrying_does_not_compose()
    ensures limit { carried_state (bank_of (balance_field ∷ [])) (bank_of (balance_field ∷ limit_field ∷ [])) 0 (one_number (pos 5))
        ≡ two_numbers (pos 5) (pos 7) }
    ensures other { compared (bank_of (balance_field ∷ [])) (only_type (codes "counter") []) 100 ≡ Some 5 }
    ensures missing { compared (bank_of (balance_field ∷ [])) [] 0 ≡ Some 0 }
    ensures again { carried_along (bank_of (balance_field ∷ limit_field ∷ []))
        (bank_of (balance_field ∷ []) ∷ bank_of (balance_field ∷ limit_field ∷ []) ∷ []) 0 (two_numbers (pos 5) (pos 9)) ≡ two_numbers (pos 5) (pos 7) }
    ensures at_once { carried_state (bank_of (balance_field ∷ limit_field ∷ [])) (bank_of (balance_field ∷ limit_field ∷ [])) 0 (two_numbers (pos 5) (pos 9))
        ≡ two_numbers (pos 5) (pos 9) }
{}
