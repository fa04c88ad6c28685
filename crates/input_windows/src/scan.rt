ghost use Rattle.std.specs.Prelude.{◌≡◌, ◌+◌, ◌<◌, ◌≤◌, ℕ, List};
ghost use Rattle.input_windows.specs.Scans.{ScanStands, IsFound};

/// How many lines a window has, unless the input ends before.
pub const WINDOW_LINES: u32 = 4096;

/// The most bytes that a line may have, without its line feed.
pub const LINE_LIMIT: usize = 65_536;

/// What the next bytes of a window bring.
pub(crate) enum Found {
    /// The window's last line feed, as the last of so many bytes.
    End { size: usize },
    /// A line that can't be taken, behind so many lines of the window.
    BadLine { behind: u32 },
    /// Neither: so many lines have ended, and so many bytes stand in the open one.
    Open { lines: u32, bytes: usize },
}

/// What these bytes bring to a window in which so many lines have ended and so many bytes stand in the open one. It may have `most`
/// lines that have a number.
pub(crate) fn scan(bytes: &[u8], most: u32, lines: u32, stood: usize) -> Found
    requires lines { lines < 4096 }
    requires stood { stood ≤ 65536 }
    ensures { (before : ℕ) (seen : List ℕ) → before + most ≡ 4294967295 → ScanStands before seen lines stood
        → IsFound before seen bytes.now result }
{
    let mut lines = lines;
    let mut stood = stood;
    for (place, byte) in bytes.iter().enumerate() {
        if lines == most {
            return Found::BadLine { behind: lines };
        }
        if *byte == b'\n' {
            lines += 1;
            stood = 0;
            if lines == WINDOW_LINES {
                return Found::End { size: place + 1 };
            }
        } else {
            if stood == LINE_LIMIT {
                return Found::BadLine { behind: lines };
            }
            stood += 1;
        }
    }
    Found::Open {
        lines,
        bytes: stood,
    }
}
