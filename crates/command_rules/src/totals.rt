ghost use Rattle.std.specs.Prelude.{◌≡◌};
ghost use Rattle.promise_spec.specs.Programs.{Program, IsChecked};
ghost use Rattle.promise_spec.specs.Entries.{new_log, standing_of};
ghost use Rattle.promise_spec.specs.Causes.{RunHasDoubt};
ghost use Rattle.promise_spec.specs.Courses.{Observed, Course, order, core_run, core_end};
ghost use Rattle.promise_spec.specs.Explanation.{IsExplained};
ghost use Rattle.promise_spec.specs.Loads.{bank_text, total_of};
ghost use Rattle.bank_load.specs.Summaries.{total_kept};

/// The balances by the order, in a silo of the bank program whose log was empty, are those that the core's last committed writers
/// left, where no batch is in doubt.
pub fn totals_are_kept()
    ensures { (p : Program) (r : Observed) (c : Course) → IsExplained p r c → IsChecked p → p.text ≡ bank_text → c.opening ≡ new_log p
        → (RunHasDoubt (core_run p c) → ⊥)
        → total_of (standing_of (order c)).states 64 ≡ total_kept (core_end p c) 64 }
{}
