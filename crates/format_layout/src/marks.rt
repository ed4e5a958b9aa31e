//! What a text has at its front.
ghost use Rattle.std.specs.Prelude.{◌≡◌, ◌≤◌, length, nat_eq};
ghost use Rattle.std.specs.List.{prefix_len};
ghost use Rattle.layer_words.specs.Spelling as spelling;
ghost use Rattle.format_mean.specs.Pieces as spec;

/// How many bytes of a comment, of a word or number, or of a sign stand after its first.
pub(crate) fn length_after(first: u8, following: &[u8]) -> usize
    ensures count { result ≡ spec.length_after first following.now }
    ensures within { result ≤ length following.now }
{
    if first == b'#' {
        comment_length(following)
    } else if is_word_byte(first) {
        word_length(following)
    } else {
        sign_length(first, following)
    }
}

/// How many bytes there are to the last one of the line that is no blank.
fn comment_length(bytes: &[u8]) -> usize
    ensures count { result ≡ spec.comment_length bytes.now }
    ensures within { result ≤ length bytes.now }
{
    let mut length = 0;
    let mut seen = 0;
    let mut rest = bytes;
    while let Some((first, following)) = rest.split_first() {
        if is_feed(*first) {
            return length;
        }
        seen += 1;
        rest = following;
        if is_blank(*first) {
            continue;
        }
        length = seen;
    }
    length
}

/// How many bytes at the front continue a word.
fn word_length(bytes: &[u8]) -> usize
    ensures count { result ≡ prefix_len spelling.is_word_byte bytes.now }
    ensures within { result ≤ length bytes.now }
{
    bytes.iter().take_while(|byte| is_word_byte(**byte)).count()
}

/// How many bytes of a sign stand after its first: one, where an equals sign makes one sign with it.
fn sign_length(first: u8, following: &[u8]) -> usize
    ensures count { result ≡ spec.sign_length first following.now }
    ensures within { result ≤ length following.now }
{
    match following.split_first() {
        Some((second, _)) if doubles(first) && *second == b'=' => 1,
        _ => 0,
    }
}

/// Whether a byte makes one sign with an equals sign after it.
fn doubles(byte: u8) -> bool
    ensures { result ≡ spec.doubles byte }
{
    matches!(byte, b'=' | b'!' | b'<' | b'>')
}

/// Whether a byte is a line feed.
pub(crate) fn is_feed(byte: u8) -> bool
    ensures { result ≡ nat_eq byte 10 }
{
    byte == b'\n'
}

/// Whether a byte is a space, a tab, a carriage return or a line feed.
pub(crate) fn is_blank(byte: u8) -> bool
    ensures { result ≡ spelling.is_blank byte }
{
    matches!(byte, b' ' | b'\t' | b'\r' | b'\n')
}

/// Whether a byte is a letter, a digit or an underscore.
pub(crate) fn is_word_byte(byte: u8) -> bool
    ensures { result ≡ spelling.is_word_byte byte }
{
    byte.is_ascii_alphanumeric() || byte == b'_'
}
