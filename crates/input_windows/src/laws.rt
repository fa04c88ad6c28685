ghost use Rattle.std.specs.Prelude.{◌≡◌, ◌≢◌, ◌+◌, ◌%◌, ◌<◌, ◌≤◌, ◌++◌, [], ℕ, List, length, None};
ghost use Rattle.request_wire.specs.Lines.{lines_of};
ghost use Rattle.promise_spec.specs.Windows.{before_bad, first_bad};
ghost use Rattle.input_windows.specs.Lines.{bytes_in, lines_in, AreWindows, IsFull, IsNextLine};

/// Windows are the input's, whatever pieces it was pulled in.
pub fn windows_make_up_the_input()
    // behind a whole window the lines are its own and those behind it
    ensures seam { (window more : List ℕ) → IsFull window → lines_of (window ++ more) ≡ lines_of window ++ lines_of more }
    // all windows are all bytes and all lines, 4,096 in each but the last
    ensures bytes { (windows : List (List ℕ)) (input : List ℕ) → AreWindows windows input → input ≡ bytes_in windows }
    ensures lines { (windows : List (List ℕ)) (input : List ℕ) → AreWindows windows input → lines_of input ≡ lines_in windows }
    ensures full { (window input rest : List ℕ) → IsNextLine window input rest → rest ≢ [] → length (lines_of window) ≡ 4096 }
    // the windows before that of a bad line have so many lines
    ensures before { (before number : ℕ) → before % 4096 ≡ 0 → before < number → number ≤ before + 4096 → before_bad number ≡ before }
    // the first bad line is one behind the windows that have none
    ensures bad { (before : ℕ) (lines more : List (List ℕ)) → first_bad before lines ≡ None
        → first_bad before (lines ++ more) ≡ first_bad (before + length lines) more }
{}
