/// What one worker has told by the signals: the line that it carries, and whether it has a place among those that carry.
#[derive(Drop)]
pub struct Stand {
    /// The number of its line, and 0 where it carries none.
    pub(crate) line: u64,
    pub(crate) has_place: bool,
    /// Whether others wait for it, since too many lines began behind its own.
    pub(crate) is_behind: bool,
    /// Whether it was ahead of what was written when it looked, and how much was written then.
    pub(crate) is_early: bool,
    pub(crate) written: u64,
}

impl Stand {
    /// A worker that carries no line, and has no place.
    pub fn new() -> Stand {
        Stand {
            line: 0,
            has_place: false,
            is_behind: false,
            is_early: false,
            written: 0,
        }
    }
}
