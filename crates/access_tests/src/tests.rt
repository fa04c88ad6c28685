// An access that never finds memory for an event, called in each way.
ghost use Rattle.access_tests.specs.Lines.{IsFit};

use crate::{LineCore, spoil_next, write_one};
use base_types::BadRequest;
use core_access::Access;
use core_model::{CoreEvent, CoreReply};
use std::alloc::AllocError;
use std::test::Fail;

// The replies that such a core gives, and any other.
#[derive(Clone, Copy, Debug, PartialEq, Eq)]
enum Said {
    Done,
    Unapplied,
    Other,
}

// What a call through an access came to.
fn word_of(reply: Result<CoreReply, AllocError>) -> Said {
    match reply {
        Ok(CoreReply::Done) => Said::Done,
        Ok(CoreReply::Unapplied) => Said::Unapplied,
        _ => Said::Other,
    }
}

// Puts an event. Where there is no memory it is let go.
fn put(core: &mut LineCore, event: CoreEvent) -> Said
    requires { IsFit core.old }
    ensures { IsFit core.new }
{
    match core.put(event) {
        Ok(reply) => word_of(Ok(reply)),
        Err(refused) => word_of(Err(refused.0)),
    }
}

#[test]
fn lines_are_spoiled_and_written_until_a_stop(rt: HostRuntime) -> Result<(), Fail> {
    let mut core = LineCore::new();
    let early = CoreEvent::Bad {
        line: 2,
        why: BadRequest::Json,
    };
    assert_eq!(rt;
        put(&mut core, early),
        Said::Unapplied,
        "line 2 before line 1"
    );
    assert_eq!(rt; word_of(spoil_next(&mut core)), Said::Done, "line 1");
    assert_eq!(rt; word_of(spoil_next(&mut core)), Said::Done, "line 2");
    assert_eq!(rt; word_of(write_one(&mut core)), Said::Done, "entry 1");
    assert_eq!(rt; put(&mut core, CoreEvent::Halt), Said::Done, "the stop");
    assert_eq!(rt;
        put(&mut core, CoreEvent::Take),
        Said::Other,
        "no memory for a batch"
    );
    assert_eq!(rt;
        word_of(spoil_next(&mut core)),
        Said::Unapplied,
        "no line after a stop"
    );
    assert_eq!(rt;
        word_of(write_one(&mut core)),
        Said::Done,
        "entry 2, after the stop"
    );
    assert_eq!(rt;
        word_of(write_one(&mut core)),
        Said::Unapplied,
        "there is no entry 3"
    );
    Ok(())
}
