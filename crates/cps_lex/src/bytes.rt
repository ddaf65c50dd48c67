//! What a byte is.
ghost use Rattle.std.specs.Prelude.{◌≡◌};
ghost use Rattle.cps_lex.specs.Bytes.{is_space, is_word, is_word_start, is_digit, is_octal_digit, is_hex_digit, hex_value, is_x, is_sign, is_quote, is_exponent_mark, is_plus_or_minus, is_float_suffix, is_number_start, is_number_part, belongs_to_number, is_blank, opens_comment};

/// White space.
#[tactic(auto, unfolding(crate::specs::Bytes::is_space))]
fn is_space(byte: u8) -> bool
    ensures { result ≡ is_space byte }
{
    matches!(byte, b' ' | 9..=13)
}

/// A letter or `_`.
#[tactic(auto, unfolding(crate::specs::Bytes::is_word_start))]
pub(crate) fn is_word_start(byte: u8) -> bool
    ensures { result ≡ is_word_start byte }
{
    byte.is_ascii_alphabetic() || byte == b'_'
}

/// A letter, a digit or `_`.
#[tactic(auto, unfolding(crate::specs::Bytes::is_word))]
pub(crate) fn is_word(byte: u8) -> bool
    ensures { result ≡ is_word byte }
{
    byte.is_ascii_alphanumeric() || byte == b'_'
}

#[tactic(auto, unfolding(crate::specs::Bytes::is_digit))]
pub(crate) fn is_digit(byte: u8) -> bool
    ensures { result ≡ is_digit byte }
{
    byte.is_ascii_digit()
}

#[tactic(auto, unfolding(crate::specs::Bytes::is_octal_digit))]
pub(crate) fn is_octal_digit(byte: u8) -> bool
    ensures { result ≡ is_octal_digit byte }
{
    matches!(byte, b'0'..=b'7')
}

#[tactic(auto, unfolding(crate::specs::Bytes::is_hex_digit))]
pub(crate) fn is_hex_digit(byte: u8) -> bool
    ensures { result ≡ is_hex_digit byte }
{
    byte.is_ascii_hexdigit()
}

/// The value of a hexadecimal digit, and so of an octal one; 0 of any other byte.
#[tactic(auto, unfolding(crate::specs::Bytes::hex_value))]
pub(crate) fn hex_value(byte: u8) -> u8
    ensures { result ≡ hex_value byte }
{
    match byte {
        b'0'..=b'9' => byte - b'0',
        b'A'..=b'F' => byte - b'A' + 10,
        b'a'..=b'f' => byte - b'a' + 10,
        _ => 0,
    }
}

/// What stands before hexadecimal digits.
#[tactic(auto, unfolding(crate::specs::Bytes::is_x))]
pub(crate) fn is_x(byte: u8) -> bool
    ensures { result ≡ is_x byte }
{
    byte == b'x' || byte == b'X'
}

/// What begins an exponent.
#[tactic(auto, unfolding(crate::specs::Bytes::is_exponent_mark))]
pub(crate) fn is_exponent_mark(byte: u8) -> bool
    ensures { result ≡ is_exponent_mark byte }
{
    byte == b'e' || byte == b'E'
}

#[tactic(auto, unfolding(crate::specs::Bytes::is_plus_or_minus))]
pub(crate) fn is_plus_or_minus(byte: u8) -> bool
    ensures { result ≡ is_plus_or_minus byte }
{
    byte == b'+' || byte == b'-'
}

/// What may end a float.
#[tactic(auto, unfolding(crate::specs::Bytes::is_float_suffix))]
pub(crate) fn is_float_suffix(byte: u8) -> bool
    ensures { result ≡ is_float_suffix byte }
{
    byte == b'f' || byte == b'F'
}

/// One of `: { } < > [ ] , ; -`.
#[tactic(auto, unfolding(crate::specs::Bytes::is_sign))]
pub(crate) fn is_sign(byte: u8) -> bool
    ensures { result ≡ is_sign byte }
{
    matches!(
        byte,
        b',' | b'-' | b':' | b';' | b'<' | b'>' | b'[' | b']' | b'{' | b'}'
    )
}

/// `"` or `'`.
#[tactic(auto, unfolding(crate::specs::Bytes::is_quote))]
pub(crate) fn is_quote(byte: u8) -> bool
    ensures { result ≡ is_quote byte }
{
    byte == b'"' || byte == b'\''
}

/// What a number may begin with.
pub(crate) fn is_number_start(byte: u8) -> bool
    ensures { result ≡ is_number_start byte }
{
    is_digit(byte) || byte == b'.'
}

/// What belongs to a number, or makes it none where it follows one.
fn is_number_part(byte: u8) -> bool
    ensures { result ≡ is_number_part byte }
{
    is_word(byte) || byte == b'.'
}

/// What may belong to a number; `marked` tells that the mark of an exponent stands before it.
pub(crate) fn belongs_to_number(marked: bool, byte: u8) -> bool
    ensures { result ≡ belongs_to_number marked byte }
{
    is_number_part(byte) || (marked && is_plus_or_minus(byte))
}

/// The byte belongs to white space or to a comment; `inside` tells that a comment is open before it.
pub(crate) fn is_blank(inside: bool, byte: u8) -> bool
    ensures { result ≡ is_blank inside byte }
{
    inside || byte == b'#' || is_space(byte)
}

/// A comment is open behind this blank byte.
pub(crate) fn opens_comment(inside: bool, byte: u8) -> bool
    ensures { result ≡ opens_comment inside byte }
{
    if inside { byte != b'\n' } else { byte == b'#' }
}
