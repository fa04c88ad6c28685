// Handles that are kept from one call to the next.
ghost use Rattle.std.specs.Prelude.{◌≡◌, ◌<◌, ◌≤◌, Bool, IsTrue, IfOk, IfSome, All, position};
ghost use Rattle.std.specs.VecDeque.{deque_len};
ghost use Rattle.host_trait.specs.Files.{same_file};
ghost use Rattle.host_trait.specs.declared.channels.FileId.{FileId};

use host_trait::FileId;
use std::alloc::{AllocError, Global};
use std::collections::VecDeque;
use system_calls::Handle;

// So many handles are kept at most: of the manager file, and of the files that a batch of 64 transactions on two grains each writes,
// with as many again.
const MOST: u64 = 256;

// So many handles that the process may have are left to others: to the standard streams, the folder, and the file that is in use.
const LEFT: u64 = 15;

/// A handle that is kept from one call to the next, and of which file it is.
#[derive(Drop)]
pub struct Kept<T: Handle> {
    pub file: FileId,
    pub opened: T,
    ghost serves: { T.file opened ≡ file },
}

fn is_same(a: FileId, b: FileId) -> bool
    ensures { result ≡ same_file a b }
{
    match (a, b) {
        (FileId::Program { slot: a }, FileId::Program { slot: b }) => a == b,
        (FileId::Manager { slot: a }, FileId::Manager { slot: b }) => a == b,
        (FileId::Grain { slot: a, grain: x }, FileId::Grain { slot: b, grain: y }) => {
            a == b && x.kind == y.kind && x.key == y.key
        }
        _ => false,
    }
}

/// Whether two names are one file's.
pub fn is_one(a: FileId, b: FileId) -> bool
    ensures { IsTrue result → a ≡ b }
{
    let same = is_same(a, b);
    same
}

// Whether a handle is this file's.
fn is_kept_of<T: Handle>(kept: &Kept<T>, file: FileId) -> bool
    ensures { result ≡ same_file kept.now.file file }
{
    is_same(kept.file, file)
}

// Where the handle of a file stands.
fn place_of<T: Handle>(all: &VecDeque<Kept<T>>, file: FileId) -> Option<usize>
    ensures { result ≡ position (λ kept. same_file kept.file file) all.now.items }
{
    all.iter().position(|kept| is_kept_of(kept, file))
}

/// The handles of the files that were used last, the latest at the back.
#[derive(Drop)]
pub struct Handles<T: Handle> {
    kept: VecDeque<Kept<T>>,
    most: usize,
}

impl<T: Handle + Drop> Handles<T> {
    /// None yet, with room for as many as are ever kept, so that no other call takes memory: 256, fewer where the process may have
    /// fewer, and one at least.
    pub fn new(alloc: Global, limit: u64) -> Result<Handles<T>, AllocError>
        ensures { IfOk result (λ handles. deque_len handles.kept ≡ 0) }
    {
        let most = limit.saturating_sub(LEFT).clamp(1, MOST) as usize;
        let kept = VecDeque::with_capacity(alloc, most)?;
        Ok(Handles { kept, most })
    }

    /// The handle of this file, which isn't kept any more. What is so of each file of which a handle was kept is so of this one, and
    /// of those whose handles are kept still.
    pub fn take(&mut self, file: FileId) -> Option<T>
        ensures file { IfSome result (λ opened. T.file opened ≡ file) }
        ensures kept { IfSome result (λ opened. 0 < deque_len self.old.kept) }
        ensures fewer { deque_len self.new.kept ≤ deque_len self.old.kept }
        ensures like { IfSome result (λ opened. (is_so : FileId → Bool) → All (λ kept. IsTrue (is_so kept.file)) self.old.kept.items
            → IsTrue (is_so file)) }
        ensures stay { (is_so : FileId → Bool) → All (λ kept. IsTrue (is_so kept.file)) self.old.kept.items
            → All (λ kept. IsTrue (is_so kept.file)) self.new.kept.items }
    {
        let Some(at) = place_of(&self.kept, file) else {
            return None;
        };
        match self.kept.remove(at) {
            Some(kept) => Some(kept.opened),
            None => None,
        }
    }

    /// Keeps a handle. Where there are too many then, that goes which was used longest ago.
    pub fn keep(&mut self, kept: Kept<T>)
        ensures stay { (is_so : FileId → Bool) → All (λ kept. IsTrue (is_so kept.file)) self.old.kept.items → IsTrue (is_so kept.file)
            → All (λ kept. IsTrue (is_so kept.file)) self.new.kept.items }
    {
        if self.kept.len() >= self.most {
            let _ = self.kept.pop_front();
        }
        let _ = self.kept.push_back(kept);
    }
}
