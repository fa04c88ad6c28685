ghost use Rattle.std.specs.Prelude.{◌≡◌, ◌<◌, ◌≤◌, ◌^◌, length, IfOk};
ghost use Rattle.field_codec.specs.declared.formats.Format.TheVariants.{Two};
ghost use Rattle.gate_block.specs.Blocks.{block_of};
ghost use Rattle.commit_log.specs.Sessions.{spelling_with_session};
ghost use Rattle.commit_log.specs.declared.contents.Body.{Body as ABody};

use base_types::List;
use field_codec::{put_u32, put_u64};
use std::alloc::{AllocError, Global};

/// The block of an upgrade to the program of this text, which has at most 262,144 bytes, in a session: its body's length, its body,
/// which begins with the session, and the closed gate of the next block. It has 21 bytes and those of the text.
pub fn encode_upgrade(alloc: Global, text: &[u8], session: u64) -> Result<List<u8>, AllocError>
    requires { length text.now ≤ 262144 }
    ensures spelled { IfOk result (λ block. block ≡ block_of (spelling_with_session Two session (ABody.Upgrade text.now))) }
    ensures small { length (spelling_with_session Two session (ABody.Upgrade text.now)) < 2 ^ 32 }
{
    let size = text.len() as u32;
    let mut block = Vec::new(alloc);
    put_u32(&mut block, size + 16)?;
    put_u64(&mut block, session)?;
    put_u32(&mut block, 4_294_967_295)?;
    put_u32(&mut block, size)?;
    block.extend_from_slice(text)?;
    block.push(0)?;
    Ok(List::from_vec(block))
}
