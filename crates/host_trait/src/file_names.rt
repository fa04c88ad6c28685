ghost use Rattle.std.specs.Prelude.{◌≡◌, string_bytes, IfOk};
ghost use Rattle.host_trait.specs.Files.{name_of};

use crate::channels::FileId;
use std::alloc::{AllocError, Global};

/// The name that a file has in its silo's folder: `program-S.otx`, `manager-S.otx` or `grain-S-K-Y.otx`, with the slot S,
/// the number K of the grain's type and its key Y in decimal.
pub fn file_name(alloc: Global, file: FileId) -> Result<String, AllocError>
    ensures { IfOk result (λ name. string_bytes name ≡ name_of file) }
{
    match file {
        FileId::Program { slot } => format!(in alloc; "program-{slot}.otx"),
        FileId::Manager { slot } => format!(in alloc; "manager-{slot}.otx"),
        FileId::Grain { slot, grain } => {
            let kind = grain.kind;
            let key = grain.key;
            format!(in alloc; "grain-{slot}-{kind}-{key}.otx")
        }
    }
}
