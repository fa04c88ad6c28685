ghost use Rattle.std.specs.Prelude.{◌≡◌, ℕ, List as AList, [], ◌∷◌, pos, Ok};
ghost use Rattle.std.specs.List.{AllByRecursion};
ghost use Rattle.base_types.specs.declared.calls.Value.TheVariants.{Int};
ghost use Rattle.request_wire.specs.Names.{names_in};
ghost use Rattle.request_wire.specs.Request.{call_of};
ghost use Rattle.serde_json.specs.Written.{compact_text};
ghost use Rattle.promise_spec.specs.Programs.{Program, IsChecked};
ghost use Rattle.promise_spec.specs.Entries.{new_silo};
ghost use Rattle.promise_spec.specs.Loads.{account, bank_text, load_calls};
ghost use Rattle.bank_load.specs.Requests.{request_data};

/// Each text of a load reads as the call that it is of, by the program of the bank's text.
pub fn load_texts_read_as_their_calls()
    ensures { (p : Program) (n seed : ℕ) → IsChecked p → p.text ≡ bank_text
        → AllByRecursion (λ c. call_of (names_in p.types) (compact_text (request_data c)) ≡ Ok c) (load_calls n seed) }
{}

/// An account of a new silo of the bank's text is empty.
pub fn bank_programs_begin_empty()
    ensures { (p : Program) (k : ℕ) → IsChecked p → p.text ≡ bank_text → (new_silo p).states (account k) ≡ Int (pos 0) ∷ [] }
{}
