ghost use Rattle.std.specs.Prelude.{◌≡◌, ◌<◌, ◌^◌, ℕ, List, take, None, Ok, unwrap_or};
ghost use Rattle.base_types.specs.declared.calls.GrainId.{GrainId};
ghost use Rattle.host_trait.specs.World.{Image};
ghost use Rattle.host_trait.specs.declared.channels.FileId.TheVariants.{Manager, Program as ProgramFile, Grain};
ghost use Rattle.field_codec.specs.declared.formats.Format.TheVariants.{One, Two};
ghost use Rattle.gate_block.specs.Log.{AreSmall};
ghost use Rattle.silo_spec.specs.Silos.{HasProgram};
ghost use Rattle.silo_spec.specs.Slots.{generation};
ghost use Rattle.log_reading.specs.Sums.{end_after};
ghost use Rattle.promise_spec.specs.Programs.{Program};
ghost use Rattle.promise_spec.specs.Entries.{Log};
ghost use Rattle.promise_spec.specs.Logs.{IsLogIn};
ghost use Rattle.promise_spec.specs.Openings.{LogRead, program_in_file, log_in_file, named_in, named_by_grain};
ghost use Rattle.promise_laws.specs.MigratedFiles.{migrated_in, migrated_file};

/// A slot's files of format 1 are put into format 2 in another slot: the program file has the same program; each grain's file begins as
/// its own did, up to the greatest end among the places that the log names there; and each body of the manager file says the same, in
/// session 1. Then the other slot has the same log: its base and its entries. Each body has a length that fits its field.
pub fn migrated_files_are_logs()
    ensures log { (live slot : ℕ) (old new : Image) (log : Log) (p : Program) (read : LogRead) (g : ℕ) (rest : List ℕ) → IsLogIn One live old log
        → program_in_file (old (ProgramFile live)) ≡ Ok p → log_in_file One p (old (Manager live)) ≡ Ok read
        → HasProgram p.text (new (ProgramFile slot))
        → ((grain : GrainId) → take (unwrap_or (end_after None (named_by_grain (named_in read)) grain) 0) (new (Grain slot grain))
        ≡ take (unwrap_or (end_after None (named_by_grain (named_in read)) grain) 0) (old (Grain live grain)))
        → new (Manager slot) ≡ migrated_file g (old (Manager live)) rest → IsLogIn Two slot new log }
    ensures small { (live : ℕ) (old : Image) (log : Log) → IsLogIn One live old log → AreSmall (migrated_in (old (Manager live))) }
    ensures generation { (g : ℕ) (old rest : List ℕ) → g < 2 ^ 32 → generation (migrated_file g old rest) ≡ g }
{}
