//! Classes of bytes, and how far each reaches.
ghost use Rattle.std.specs.Prelude.{◌≡◌, ◌≤◌, ◌<◌, ℕ, length, drop, IsTrue, slice_index};
ghost use Rattle.std.specs.List.{prefix_len};
ghost use Rattle.script_lexer.specs.Spellings.{is_blank, is_letter, is_digit, in_name, in_line, in_text};

pub(crate) fn is_blank_byte(byte: u8) -> bool
    ensures { result ≡ is_blank byte }
{
    byte == b' ' || byte == b'\t' || byte == b'\r' || byte == b'\n'
}

pub(crate) fn is_letter_byte(byte: u8) -> bool
    ensures { result ≡ is_letter byte }
{
    b'a' <= byte && byte <= b'z'
}

pub(crate) fn is_digit_byte(byte: u8) -> bool
    ensures { result ≡ is_digit byte }
{
    b'0' <= byte && byte <= b'9'
}

fn is_name_byte(byte: u8) -> bool
    ensures { result ≡ in_name byte }
{
    is_letter_byte(byte) || is_digit_byte(byte) || byte == b'_'
}

fn is_text_byte(byte: u8) -> bool
    ensures { result ≡ in_text byte }
{
    b' ' <= byte && byte != b'"' && byte != b'\\'
}

/// How many bytes of a name stand next.
pub(crate) fn name_len(bytes: &[u8]) -> usize
    ensures len { result ≡ prefix_len in_name bytes.now }
    ensures within { result ≤ length bytes.now }
{
    bytes.iter().take_while(|b| is_name_byte(**b)).count()
}

/// How many bytes of a text stand next.
pub(crate) fn text_len(bytes: &[u8]) -> usize
    ensures len { result ≡ prefix_len in_text bytes.now }
    ensures within { result ≤ length bytes.now }
{
    bytes.iter().take_while(|b| is_text_byte(**b)).count()
}

/// How many digits stand next.
pub(crate) fn digits_len(bytes: &[u8]) -> usize
    ensures len { result ≡ prefix_len is_digit bytes.now }
    ensures within { result ≤ length bytes.now }
    ensures digits { (i : ℕ) → i < result → IsTrue (is_digit (slice_index bytes.now i)) }
{
    bytes.iter().take_while(|b| is_digit_byte(**b)).count()
}

/// How many bytes stand before the next line feed, or the end.
pub(crate) fn line_len(bytes: &[u8]) -> usize
    ensures { result ≡ prefix_len in_line bytes.now }
{
    bytes.iter().take_while(|b| **b != b'\n').count()
}

/// The bytes from a place on.
pub(crate) fn skip(bytes: &[u8], len: usize) -> &[u8]
    requires { len ≤ length bytes.now }
    ensures { result.now ≡ drop len bytes.now }
{
    &bytes[len..]
}
