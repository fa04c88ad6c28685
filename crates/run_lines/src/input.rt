ghost use Rattle.std.specs.Prelude.{◌≡◌, ◌+◌, ◌-◌, ◌^◌, ◌<◌, length, drop, IfOk};
ghost use Rattle.request_wire.specs.Lines.{lines_of};
ghost use Rattle.script_tree.specs.Programs.{program_tree};
ghost use Rattle.run_lines.specs.LineReadings.{line_from_text, lines_from_texts, input_lines};
ghost use Rattle.std.proofs.Props.{props};

use crate::lines::Lines;
use request_wire::{Line, RequestFault, first_line, read_request};
use script_check::Checked;
use std::alloc::{AllocError, Global};

/// The lines of an input, each cut and read when it is asked for. They are numbered behind those of the inputs before: a line's number
/// is 1 more than how many those have and its place.
///
/// A place that isn't before the last that was asked for is reached from there, any other from the front.
#[derive(Clone, Copy)]
pub struct InputLines<'a> {
    checked: &'a Checked,
    /// How many lines the inputs before have.
    before: u32,
    input: &'a [u8],
    /// What is left of the input, behind so many lines.
    rest: &'a [u8],
    cut: usize,
    ghost few: { before + length (lines_of input.now) < 2 ^ 32 },
    ghost left: { lines_of rest.now ≡ drop cut (lines_of input.now) } by { Prim.hlevel props },
}

/// What is left of an input behind so many lines.
fn behind(input: &[u8], lines: usize) -> &[u8]
    ensures { lines_of result.now ≡ drop lines (lines_of input.now) }
{
    let mut rest = input;
    for _line in 0..lines {
        match first_line(rest) {
            Some((_, tail)) => rest = tail,
            None => return rest,
        }
    }
    rest
}

/// The line with this number. A bad line is a line too: the one error is want of memory.
fn read_line(alloc: Global, checked: &Checked, number: u32, text: &[u8]) -> Result<Line, AllocError>
    ensures { IfOk result (λ line. line ≡ line_from_text (program_tree checked.now) number text.now) }
{
    match read_request(alloc, text, checked) {
        Ok(call) => Ok(Line {
            number,
            what: Ok(call),
        }),
        Err(RequestFault::Bad(why)) => Ok(Line {
            number,
            what: Err(why),
        }),
        Err(RequestFault::Memory) => Err(AllocError),
    }
}

impl<'a> InputLines<'a> {
    /// The lines of an input, as calls of this program, numbered from 1.
    pub fn new(checked: &'a Checked, input: &'a [u8]) -> InputLines<'a>
        requires { length input.now < 2 ^ 32 - 1 }
        ensures { ⟦<InputLines<'a> as Lines>⟧.lines result ≡ input_lines (program_tree checked.now) input.now }
    {
        InputLines::new_behind(checked, 0, input)
    }

    /// The lines of an input, as calls of this program, numbered behind so many lines of the inputs before. A line's number has 32 bits.
    pub fn new_behind(checked: &'a Checked, before: u32, input: &'a [u8]) -> InputLines<'a>
        requires { before + length (lines_of input.now) < 2 ^ 32 }
        ensures { ⟦<InputLines<'a> as Lines>⟧.lines result ≡ lines_from_texts (program_tree checked.now) before (lines_of input.now) }
    {
        InputLines {
            checked,
            before,
            input,
            rest: input,
            cut: 0,
        }
    }

    /// What is left of the input at this place.
    fn rest_at(&self, place: usize) -> &'a [u8]
        ensures { lines_of result.now ≡ drop place (lines_of self.now.input.now) }
    {
        if place < self.cut {
            return behind(self.input, place);
        }
        behind(self.rest, place - self.cut)
    }
}

impl<'a> Lines for InputLines<'a> {
    ghost lines = { λ l. lines_from_texts (program_tree l.checked.now) l.before (lines_of l.input.now) };

    fn line_at(&mut self, alloc: Global, place: usize) -> Result<Option<Line>, AllocError> {
        let rest = self.rest_at(place);
        self.rest = rest;
        self.cut = place;
        match first_line(rest) {
            Some((text, _)) => {
                let next = (place + 1) as u32;
                let number = self.before + next;
                Ok(Some(read_line(alloc, self.checked, number, text)?))
            }
            None => Ok(None),
        }
    }
}
