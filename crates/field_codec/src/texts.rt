ghost use Rattle.std.specs.Prelude.{◌≡◌, ◌++◌, length, take, IfSome, IfNone, OnOk, true, false};
ghost use Rattle.std.specs.Str.{is_utf8};
ghost use Rattle.field_codec.specs.Readers.{text_at, program_at};
ghost use Rattle.field_codec.specs.Results.{GivesRead};
ghost use Rattle.field_codec.specs.Spelling.{spelling_of_text, TextFits};
ghost use Rattle.field_codec.specs.declared.formats.Format.TheVariants.{Two};

use crate::faults::CodecFault;
use crate::formats::Format;
use crate::numbers::{get_count, get_u32, put_u16};
use base_types::{List, Text};
use std::alloc::{AllocError, Global};

// The bytes as a text, where they are UTF-8.
fn as_text(bytes: &[u8]) -> Option<&str>
    ensures some { IfSome result (λ text. (text.now ≡ bytes.now) × (is_utf8 bytes.now ≡ true)) }
    ensures none { IfNone result (is_utf8 bytes.now ≡ false) }
{
    match std::str::from_utf8(bytes) {
        Ok(text) => Some(text),
        Err(_) => None,
    }
}

/// The text that stands at a place, within the format's limit, and the place behind it.
#[tactic(auto, unfolding(crate::specs::Readers::text_at, crate::specs::Readers::field, crate::specs::Readers::letters))]
pub fn get_text(
    alloc: Global,
    bytes: &[u8],
    at: usize,
    format: Format,
) -> Result<(Text, usize), CodecFault>
    ensures { GivesRead result (text_at format bytes.now at) }
{
    let (len, after) = get_count(bytes, at, format.text_limit())?;
    let len = len as usize;
    if bytes.len() < after || bytes.len() - after < len {
        return Err(CodecFault::Short { place: after });
    }
    let (_, rest) = bytes.split_at(after);
    let (text, _) = rest.split_at(len);
    let Some(text) = as_text(text) else {
        return Err(CodecFault::NotUtf8 { place: after });
    };
    match Text::new(alloc, text)? {
        Some(text) => Ok((text, after + len)),
        None => Err(CodecFault::Memory),
    }
}

/// Appends a text's length and its bytes. Without memory some of them may have been appended.
pub fn append_text(into: &mut Vec<u8>, text: &Text) -> Result<(), AllocError>
    ensures ok { OnOk result (into.new.items ≡ into.old.items ++ spelling_of_text text.now) }
    ensures fits { TextFits Two text.now }
    ensures begins { take (length into.old.items) into.new.items ≡ into.old.items }
{
    let bytes = text.as_str().as_bytes();
    put_u16(into, bytes.len() as u16)?;
    into.extend_from_slice(bytes)?;
    Ok(())
}

/// A program's text that stands at a place, and the place behind it.
#[tactic(auto, unfolding(crate::specs::Readers::program_at, crate::specs::Readers::bytes_at, crate::specs::Readers::count_at, crate::specs::Readers::field, crate::specs::Readers::choice, crate::specs::Readers::refused, crate::specs::Readers::whole))]
pub fn get_program(alloc: Global, bytes: &[u8], at: usize) -> Result<(List<u8>, usize), CodecFault>
    ensures { GivesRead result (program_at bytes.now at) }
{
    let (len, after) = get_u32(bytes, at)?;
    if len > 262_144 {
        return Err(CodecFault::Over {
            place: at,
            limit: 262_144,
        });
    }
    let len = len as usize;
    if bytes.len() < after || bytes.len() - after < len {
        return Err(CodecFault::Short { place: after });
    }
    let (_, rest) = bytes.split_at(after);
    let (text, _) = rest.split_at(len);
    let mut copied = Vec::new(alloc);
    copied.extend_from_slice(text)?;
    Ok((List::from_vec(copied), after + len))
}
