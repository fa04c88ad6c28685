// What the lines of replies and of records say of one another.

/// The number behind these letters of a line.
pub fn number_at(line: &str, key: &str) -> Option<u64> {
    let (_, behind) = line.split_once(key)?;
    let mut number: u64 = 0;
    for letter in behind.bytes() {
        match letter {
            b'0'..=b'9' => {
                number = number
                    .wrapping_mul(10)
                    .wrapping_add(u64::from(letter.wrapping_sub(b'0')));
            }
            _ => break,
        }
    }
    Some(number)
}

// The line that a reply or a record is of.
fn line_of(text: &str) -> Option<u64> {
    number_at(text, "\"n\":")
}

/// Whether a reply or a record has a value.
pub fn has_value(text: &str) -> bool {
    text.contains("\"reply\":")
}

// Whether a reply says that the transaction is in the log.
fn says_logged(reply: &str) -> bool {
    has_value(reply) || reply.contains("\"fault\":")
}

fn is_doubt(reply: &str) -> bool {
    reply.contains("\"in_doubt\":")
}

// How many lines of a text are of this line of the input.
fn count_of(text: &str, number: u64) -> u64 {
    let mut count: u64 = 0;
    for line in text.lines() {
        if line_of(line) == Some(number) {
            count = count.saturating_add(1);
        }
    }
    count
}

// Whether a record says this of this unit, behind what was asked: its session stands between both.
fn says_of(record: &str, said: &str, unit: &str) -> bool {
    let Some((front, behind)) = record.split_once("\"session\":") else {
        return false;
    };
    let Some((_, owner)) = behind.split_once("\"unit\":") else {
        return false;
    };
    front.ends_with(said) && owner == unit
}

// Whether a record says what a reply says.
fn has_record(records: &str, reply: &str) -> bool {
    let Some(said) = reply.strip_prefix("{") else {
        return false;
    };
    let Some((said, unit)) = said.split_once("\"unit\":") else {
        return false;
    };
    for record in records.lines() {
        if says_of(record, said, unit) {
            return true;
        }
    }
    false
}

/// What a command's end says of the log: the records before it, the replies, and how many lines its input had.
#[derive(Clone, Copy)]
pub struct Said<'a> {
    pub before: &'a str,
    pub replies: &'a str,
    pub lines: u64,
}

/// Whether each line has exactly one reply.
pub fn answers_all(replies: &str, lines: u64) -> bool {
    for number in 0..lines {
        if count_of(replies, number.wrapping_add(1)) != 1 {
            return false;
        }
    }
    count_of_all(replies) == lines
}

fn count_of_all(text: &str) -> u64 {
    text.lines().count() as u64
}

// What is untrue of a reply.
fn untruth_of_reply(reply: &str, records: &str) -> Option<&'static str> {
    let Some(number) = line_of(reply) else {
        return Some("a reply without a number");
    };
    if says_logged(reply) {
        if !has_record(records, reply) {
            return Some("a reply without its record");
        }
        return None;
    }
    if !is_doubt(reply) && count_of(records, number) > 0 {
        return Some("a record of what was aborted");
    }
    None
}

// Whether a record is the one record of a line.
fn is_asked(record: &str, records: &str, lines: u64) -> bool {
    match line_of(record) {
        Some(number) => number > 0 && number <= lines && count_of(records, number) == 1,
        None => false,
    }
}

// Whether a part of what is in doubt has records, and a part has none.
fn halves_doubt(replies: &str, records: &str) -> bool {
    let mut with: u64 = 0;
    let mut without: u64 = 0;
    for reply in replies.lines() {
        if is_doubt(reply) {
            if count_of(records, line_of(reply).unwrap_or(0)) > 0 {
                with = with.saturating_add(1);
            } else {
                without = without.saturating_add(1);
            }
        }
    }
    with > 0 && without > 0
}

/// What is untrue of the records that a folder has then.
pub fn untruth_of_records(said: Said<'_>, history: &str) -> Option<&'static str> {
    let Some(records) = history.strip_prefix(said.before) else {
        return Some("an older record is gone");
    };
    for reply in said.replies.lines() {
        if let Some(untruth) = untruth_of_reply(reply, records) {
            return Some(untruth);
        }
    }
    for record in records.lines() {
        if !is_asked(record, records, said.lines) {
            return Some("a record of no line, or a second one");
        }
    }
    if halves_doubt(said.replies, records) {
        return Some("half of what is in doubt");
    }
    None
}
