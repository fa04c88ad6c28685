/// What a line says of the event to come.
#[derive(Clone, Copy)]
pub enum Note {
    OfLine,
    OfChild,
    Call,
    Value,
    Fault,
    Abort,
    Answer,
    Field,
    Found,
    Wrote,
}

/// An event; the first five are of what the lines before told.
#[derive(Clone, Copy)]
pub enum Event {
    Begin,
    Finish,
    EndPlain,
    EndSnapshot,
    Load,
    Read,
    Update,
    RefuseRead,
    RefuseUpdate,
    Release,
    Learn,
    Want,
    Yes,
    No,
    Decide,
    Sealed,
    NotSealed,
    Doubt,
    Take,
    Emitted,
    Halt,
    Bad,
}

/// A look at the core, or a new one; the last three are of the core as an access and an object.
#[derive(Clone, Copy)]
pub enum Look {
    Open,
    Sum,
    Tell,
    Entries,
    See,
    Spoil,
    Object,
}

/// The first word of a line.
#[derive(Clone, Copy)]
pub enum Verb {
    Note(Note),
    Event(Event),
    Look(Look),
}

/// What a word stands for.
pub fn verb_of(word: &str) -> Option<Verb> {
    match word {
        "of_line" => Some(Verb::Note(Note::OfLine)),
        "of_child" => Some(Verb::Note(Note::OfChild)),
        "call" => Some(Verb::Note(Note::Call)),
        "value" => Some(Verb::Note(Note::Value)),
        "fault" => Some(Verb::Note(Note::Fault)),
        "abort" => Some(Verb::Note(Note::Abort)),
        "answer" => Some(Verb::Note(Note::Answer)),
        "field" => Some(Verb::Note(Note::Field)),
        "found" => Some(Verb::Note(Note::Found)),
        "wrote" => Some(Verb::Note(Note::Wrote)),
        _ => told_event(word),
    }
}

// An event of which the lines before tell, or another word.
fn told_event(word: &str) -> Option<Verb> {
    match word {
        "begin" => Some(Verb::Event(Event::Begin)),
        "finish" => Some(Verb::Event(Event::Finish)),
        "end_plain" => Some(Verb::Event(Event::EndPlain)),
        "end_snapshot" => Some(Verb::Event(Event::EndSnapshot)),
        "load" => Some(Verb::Event(Event::Load)),
        _ => lock_event(word),
    }
}

// An event of a unit and a grain, or another word.
fn lock_event(word: &str) -> Option<Verb> {
    match word {
        "read" => Some(Verb::Event(Event::Read)),
        "update" => Some(Verb::Event(Event::Update)),
        "refuse_read" => Some(Verb::Event(Event::RefuseRead)),
        "refuse_update" => Some(Verb::Event(Event::RefuseUpdate)),
        "release" => Some(Verb::Event(Event::Release)),
        "learn" => Some(Verb::Event(Event::Learn)),
        "want" => Some(Verb::Event(Event::Want)),
        _ => batch_event(word),
    }
}

// An event of a batch, or another word.
fn batch_event(word: &str) -> Option<Verb> {
    match word {
        "yes" => Some(Verb::Event(Event::Yes)),
        "no" => Some(Verb::Event(Event::No)),
        "decide" => Some(Verb::Event(Event::Decide)),
        "sealed" => Some(Verb::Event(Event::Sealed)),
        "not_sealed" => Some(Verb::Event(Event::NotSealed)),
        "doubt" => Some(Verb::Event(Event::Doubt)),
        _ => other_event(word),
    }
}

// Another event, or another word.
fn other_event(word: &str) -> Option<Verb> {
    match word {
        "take" => Some(Verb::Event(Event::Take)),
        "emitted" => Some(Verb::Event(Event::Emitted)),
        "halt" => Some(Verb::Event(Event::Halt)),
        "bad" => Some(Verb::Event(Event::Bad)),
        _ => look_of(word),
    }
}

fn look_of(word: &str) -> Option<Verb> {
    match word {
        "open" => Some(Verb::Look(Look::Open)),
        "sum" => Some(Verb::Look(Look::Sum)),
        "tell" => Some(Verb::Look(Look::Tell)),
        "entries" => Some(Verb::Look(Look::Entries)),
        "see" => Some(Verb::Look(Look::See)),
        "spoil" => Some(Verb::Look(Look::Spoil)),
        "object" => Some(Verb::Look(Look::Object)),
        _ => None,
    }
}
