// The spelling of a version.
use crate::numbers::put_u64;
use crate::spelling::Spelled;
use crate::values::append_values;
use base_types::Version;
use std::alloc::AllocError;

impl Spelled for Version {
    ghost use Rattle.field_codec.specs.Spelling.{spelling_of_version, VersionFits};
    ghost use Rattle.field_codec.specs.declared.formats.Format.TheVariants.{Two};

    ghost may_spell = { λ _. Unit {0} };

    ghost spelling = { spelling_of_version };

    ghost fits = { VersionFits Two };

    fn append(&self, into: &mut Vec<u8>) -> Result<(), AllocError> {
        // Its contract bounds the count.
        let _count = self.state.len();
        put_u64(into, self.unit.0)?;
        append_values(into, self.state.as_slice())?;
        Ok(())
    }
}
