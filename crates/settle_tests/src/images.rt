// What crashes may leave of the log.
ghost use Rattle.std.specs.Prelude.{◌≤◌};
ghost use Rattle.host_memory.specs.ShownState.{calls_in};

use crate::logs::words;
use crate::recorder::bytes_in;
use host_memory::MemoryHost;
use host_trait::FileId;
use std::alloc::{AllocError, Global};

/// How many images of a crash are looked at.
pub const PICKS: u64 = 16;

/// A log that an image may have: no block, or one block with that word; 0 is none.
#[derive(Clone, Copy)]
pub struct Allowed {
    pub empty: bool,
    pub word: u64,
}

fn is_allowed(found: &[u64], allowed: Allowed) -> bool {
    match found.first() {
        None => allowed.empty,
        Some(word) => found.len() == 1 && allowed.word != 0 && *word == allowed.word,
    }
}

// The words of the log of an image.
fn words_after(
    alloc: Global,
    host: &MemoryHost,
    log: FileId,
    after: u64,
    pick: u64,
    behind: usize,
) -> Result<Option<Vec<u64>>, AllocError>
    requires { after ≤ calls_in host.now }
{
    let image = host.crashed(after, pick)?;
    let words = words(alloc, bytes_in(&image, log), behind);
    drop(image);
    words
}

/// How many of the images that a crash may leave after so many calls, or within the next one, have a log that is allowed, by
/// the words so far behind its gates.
pub fn count_allowed(
    alloc: Global,
    host: &MemoryHost,
    log: FileId,
    after: u64,
    behind: usize,
    allowed: Allowed,
) -> Result<u64, AllocError>
    requires { after ≤ calls_in host.now }
{
    let mut count = 0u64;
    for pick in 0..PICKS {
        if let Some(found) = words_after(alloc, host, log, after, pick, behind)?
            && is_allowed(found.as_slice(), allowed)
        {
            count = count.wrapping_add(1);
        }
    }
    Ok(count)
}
