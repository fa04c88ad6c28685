ghost use Rattle.std.specs.Prelude.{◌≡◌, ◌++◌, ◌∷◌, [], ℕ, List, length, codes, Some, None};
ghost use Rattle.request_wire.specs.Lines.{lines_of};
ghost use Rattle.promise_spec.specs.Programs.{Program};
ghost use Rattle.promise_spec.specs.Windows.{feeds, first_bad, told_number, before_bad, whole_windows};
ghost use Rattle.promise_spec.specs.Endings as ending;
ghost use Rattle.promise_spec.specs.Courses.{Observed, Course, lines};
ghost use Rattle.promise_spec.specs.Promise.{KeepsAnywhere};

/// How many lines may begin, in numbers: a line of 65,536 bytes can be taken and one of 65,537 can't; the windows before a line have
/// 4,096 lines each; what is told of a line is its number in the input, and 0 of number 4,294,967,296; and windows that were pulled whole count up
/// to the first bad line. So it is in a run, over any folder, of which line 2 or line 4,097 is too long, or whose reading fails behind 4,095,
/// 4,096 or 10,000 line feeds.
pub fn windows_are_counted_so()
    ensures longest { (line : List ℕ) → length line ≡ 65536 → first_bad 0 (line ∷ []) ≡ None }
    ensures longer { (line : List ℕ) → length line ≡ 65537 → first_bad 0 (line ∷ []) ≡ Some 1 }
    ensures numbered { first_bad 4294967294 ([] ∷ [] ∷ []) ≡ Some 4294967296 }
    ensures before { (before_bad 1 ≡ 0) × (before_bad 4096 ≡ 0) × (before_bad 4097 ≡ 4096) × (before_bad 8193 ≡ 8192) × (before_bad 4294967296 ≡ 4294963200) }
    ensures told { (told_number 1 ≡ 1) × (told_number 4097 ≡ 4097) × (told_number 4294967295 ≡ 4294967295) × (told_number 4294967296 ≡ 0) }
    ensures small { whole_windows (codes "account/1.read\n") ≡ 0 }
    ensures none_bad { (bytes : List ℕ) → first_bad 0 (lines_of bytes) ≡ None → feeds bytes ≡ 10000 → whole_windows bytes ≡ 8192 }
    ensures some_bad { (bytes : List ℕ) → first_bad 0 (lines_of bytes) ≡ Some 5000 → whole_windows bytes ≡ 4096 }
    ensures second_long { (p : Program) (r : Observed) (c : Course) (told : ℕ) → KeepsAnywhere p r c → r.ending ≡ ending.InputTooLong told
        → first_bad 0 (lines r) ≡ Some 2 → (c.allowed ≡ 0) × (told ≡ 2) }
    ensures later_long { (p : Program) (r : Observed) (c : Course) (told : ℕ) → KeepsAnywhere p r c → r.ending ≡ ending.InputTooLong told
        → first_bad 0 (lines r) ≡ Some 4097 → (c.allowed ≡ 4096) × (told ≡ 4097) }
    ensures fault { (p : Program) (r : Observed) (c : Course) (front : List ℕ) → KeepsAnywhere p r c → r.ending ≡ ending.ReadFault
        → r.old.input ≡ front ++ r.new.input → feeds front ≡ 4095 → c.allowed ≡ 0 }
    ensures later_fault { (p : Program) (r : Observed) (c : Course) (front : List ℕ) → KeepsAnywhere p r c → r.ending ≡ ending.ReadFault
        → r.old.input ≡ front ++ r.new.input → feeds front ≡ 4096 → c.allowed ≡ 4096 }
{}
