ghost use Rattle.std.specs.Prelude.{◌≡◌, if◌then◌else◌, Option, Some, None, IfSome, List, ℕ};
ghost use Rattle.silo_spec.specs.Silos.{IsFormat, IsMagic};
ghost use Rattle.silo_spec.specs.Slots.{generation};
ghost use Rattle.silo_opening.specs.declared.headers.Header.{Header};
ghost use Rattle.silo_opening.specs.OpenedSilo.{is_header, header_of, live_header};

use field_codec::Format;

/// What a silo's header says: the generation, and the format of all that stands behind it.
#[derive(Clone, Copy)]
pub(crate) struct Header {
    pub generation: u32,
    pub format: Format,
}

/// The format that these bytes name; none where they are no magic.
pub(crate) fn format_named(name: &[u8]) -> Option<Format>
    ensures named { IfSome result (λ format. IsFormat format name.now) }
    ensures other { result ≡ None → IsMagic name.now → ⊥ }
{
    let one = Format::One.magic();
    if name == one.as_slice() {
        return Some(Format::One);
    }
    let two = Format::Two.magic();
    if name == two.as_slice() {
        return Some(Format::Two);
    }
    None
}

// The generation of a silo's header.
fn generation_of(head: &[u8; 16]) -> u32
    ensures { result ≡ generation head.now }
{
    u32::from_le_bytes([head[9], head[10], head[11], head[12]])
}

/// What the first bytes of a file say as the header of a silo; none where they are none.
pub(crate) fn header_of(head: &[u8; 16]) -> Option<Header>
    ensures { result ≡ (if is_header head.now then Some (header_of head.now) else None) }
{
    if head[0] != 1 {
        return None;
    }
    match format_named(&head[1..9]) {
        Some(format) => Some(Header {
            generation: generation_of(head),
            format,
        }),
        None => None,
    }
}

/// The live slot and its header, by the headers of both slots: that of the greater generation, and slot 0 where both are equal.
pub(crate) fn live_header(first: Option<Header>, other: Option<Header>) -> Option<(u8, Header)>
    ensures { result ≡ live_header first other }
{
    match first {
        None => match other {
            None => None,
            Some(other) => Some((1, other)),
        },
        Some(first) => match other {
            None => Some((0, first)),
            Some(other) => {
                if first.generation < other.generation {
                    Some((1, other))
                } else {
                    Some((0, first))
                }
            }
        },
    }
}
