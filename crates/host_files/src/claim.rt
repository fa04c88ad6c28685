// A process's hold on a folder.
ghost use Rattle.std.specs.Prelude.{◌≡◌, ◌<◌, IfSome, OnOk, OnErr, IfOk, IsTrue, IsOk, Some, is_some, false, None};
ghost use Rattle.system_calls.specs.System.{HasNoBytes};
ghost use Rattle.host_files.specs.UnfailingCalls.{WentWell, WasObeyed};

use system_calls::{Refused, SystemCalls};

/// The handle of a folder, which holds its lock, and handles that stand in for closed standard streams.
///
/// A stream that was closed when the process began leaves its number free, and the next file that is opened would get it: what
/// is meant for the stream would land in that file. So before any file of the folder is opened, each of the numbers 0, 1 and 2
/// that is free goes to a handle of the folder. A read of a folder fails, and so does a write.
#[derive(Drop)]
pub struct Claim<T, L> {
    for_input: Option<T>,
    for_output: Option<T>,
    for_errors: Option<T>,
    folder: Option<L>,
    is_missing: bool,
    ghost held: { IsTrue (is_some folder) → is_missing ≡ false },
}

impl<T: Drop, L: Drop> Claim<T, L> {
    /// A hold on nothing yet.
    pub fn new() -> Claim<T, L>
        ensures folder { result.folder ≡ None }
        ensures missing { result.is_missing ≡ false }
    {
        Claim {
            for_input: None,
            for_output: None,
            for_errors: None,
            folder: None,
            is_missing: false,
        }
    }

    /// The handle of the folder, where it is taken.
    pub fn folder(&self) -> Option<&L>
        ensures some { IfSome result (λ folder. self.now.folder ≡ Some folder.now) }
        ensures taken { is_some result ≡ is_some self.now.folder }
    {
        self.folder.as_ref()
    }

    // Keeps a handle in the place of the standard stream whose number it got.
    fn stand_in(&mut self, number: u32, opened: T)
        ensures folder { self.new.folder ≡ self.old.folder }
        ensures missing { self.new.is_missing ≡ self.old.is_missing }
    {
        match number {
            0 => self.for_input = Some(opened),
            1 => self.for_output = Some(opened),
            _ => self.for_errors = Some(opened),
        }
    }

    /// Takes the folder at this path, unless it is taken, and answers whether it is there. Refused where another handle has its
    /// lock; no file of it may be opened then. A folder that wasn't there once isn't looked for again: what comes to stand at its
    /// path is another one.
    pub fn take<S: SystemCalls<Folder = T, Locked = L>>(
        &mut self,
        system: &mut S,
        path: &str,
    ) -> Result<bool, Refused>
        requires path { IsTrue S.tells → path.now ≡ S.leads }
        requires absent { IsTrue S.tells → IsTrue self.old.is_missing → HasNoBytes (S.state system.old) }
        ensures taken { IfOk result (λ there. IsTrue there → IsTrue (is_some self.new.folder)) }
        ensures missing { IfOk result (λ there. there ≡ false → IsTrue self.new.is_missing) }
        ensures stays { OnErr result (self.new.folder ≡ self.old.folder) }
        ensures kept { IsTrue (is_some self.old.folder) → self.new.folder ≡ self.old.folder }
        ensures absent { IsTrue S.tells → IsTrue self.new.is_missing → HasNoBytes (S.state system.new) }
        ensures state { IsTrue S.tells → S.state system.new ≡ S.state system.old }
        ensures calm { OnOk result (IsTrue S.tells → WasObeyed (S.answered system.old) (S.answered system.new)) }
        ensures fine { IsTrue S.tells → WentWell (S.answered system.old) (S.answered system.new) → IsOk result }
        ensures known { IsTrue S.tells → (S.answered system.new).has_lost_entries ≡ (S.answered system.old).has_lost_entries }
    {
        if self.folder.is_some() {
            return Ok(true);
        }
        if self.is_missing {
            return Ok(false);
        }
        for turn in 0..4u32 {
            let opened = match system.open_folder(path) {
                Ok(opened) => opened,
                Err(Refused::Missing) => {
                    self.is_missing = true;
                    return Ok(false);
                }
                Err(error) => return Err(error),
            };
            let number = system.number(&opened);
            if number > 2 {
                let locked = system.lock(opened)?;
                self.folder = Some(locked);
                return Ok(true);
            }
            self.stand_in(number, opened);
        }
        Err(Refused::Failed)
    }
}
