use base_types::BadRequest;
use core_access::Access;
use core_model::{CoreAnswer, CoreEvent, CoreQuestion, CoreReply};
use std::alloc::AllocError;
use turn_cell::TurnObject;

/// An object of a turn cell.
pub fn is_object<T: TurnObject>(_object: &T) -> bool {
    true
}

/// The number of the next line, through any access.
pub fn next_line<A: Access>(access: &mut A) -> Result<u64, AllocError>
    requires { A.is_fit access.old }
{
    let answer = access.see(&CoreQuestion::NextLine)?;
    let line = match &answer {
        CoreAnswer::NextLine(line) => Ok(*line),
        _ => Err(AllocError),
    };
    drop(answer);
    line
}

/// Puts that the line is bad, and says whether that was done, through any access.
pub fn spoil<A: Access>(access: &mut A, line: u32) -> bool
    requires { A.is_fit access.old }
{
    let why = BadRequest::Json;
    let reply = access.put(CoreEvent::Bad { line, why });
    let is_done = match &reply {
        Ok(CoreReply::Done) => true,
        _ => false,
    };
    drop(reply);
    is_done
}
