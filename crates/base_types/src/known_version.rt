ghost use Rattle.std.specs.Prelude.{◌≡◌};
ghost use Rattle.std.specs.Borrow.{ftrue};
ghost use Rattle.base_types.specs.declared.stores.Version.{Version};

use crate::stores::Version;
use std::marker::Model;

/// A version that contracts know. It takes no bytes.
#[derive(Drop)]
pub struct KnownVersion {
    pub ghost version: { Version },
}

impl Model for KnownVersion {
    ghost also_owns = { λ _. ftrue };
}

// A struct with `also_owns` may cross threads only where it is said. This one owns nothing.
unsafe impl Send for KnownVersion {}

unsafe impl Sync for KnownVersion {}

impl KnownVersion {
    /// That version. Takes no memory, and reads nothing of it when it runs.
    pub fn of(_version: &Version) -> KnownVersion
        ensures { result.version ≡ _version.now }
    {
        KnownVersion {}
    }

    /// The same version. Takes no memory.
    pub fn same(&self) -> KnownVersion
        ensures { result.version ≡ self.now.version }
    {
        KnownVersion {}
    }
}
