ghost use Rattle.std.specs.Prelude.{◌≡◌, IfOk, slice_get};

use crate::lines::Lines;
use base_types::{BadRequest, Call, List};
use request_wire::Line;
use std::alloc::{AllocError, Global};

/// Lines that stand in a list.
#[derive(Clone, Copy)]
pub struct ListLines<'a> {
    list: &'a List<Line>,
}

impl<'a> ListLines<'a> {
    /// The lines of a list.
    pub fn new(list: &'a List<Line>) -> ListLines<'a>
        ensures { ⟦<ListLines<'a> as Lines>⟧.lines result ≡ list.now }
    {
        ListLines { list }
    }
}

/// A copy of what a line asks.
fn copy_asked(asked: &Result<Call, BadRequest>) -> Result<Result<Call, BadRequest>, AllocError>
    ensures { IfOk result (λ made. made ≡ asked.now) }
{
    match asked {
        Ok(call) => Ok(Ok(call.copy()?)),
        Err(why) => Ok(Err(*why)),
    }
}

/// A copy of a line.
fn copy_line(line: &Line) -> Result<Line, AllocError>
    ensures { IfOk result (λ made. made ≡ line.now) }
{
    Ok(Line {
        number: line.number,
        what: copy_asked(&line.what)?,
    })
}

impl<'a> Lines for ListLines<'a> {
    ghost lines = { λ l. l.list.now };

    fn line_at(&mut self, _alloc: Global, place: usize) -> Result<Option<Line>, AllocError> {
        match self.list.get(place) {
            Some(line) => Ok(Some(copy_line(line)?)),
            None => Ok(None),
        }
    }
}
