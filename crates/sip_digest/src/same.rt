//! Texts compared in a time that does not tell where they differ.
ghost use Rattle.std.specs.Prelude.{◌≡◌, ◌++◌};
ghost use Rattle.std.specs.Str.{bytes_eq, str_to_ascii_lowercase};

/// Whether two texts are the same. Every byte is looked at, whatever those before it are.
pub(crate) fn is_same(text: &[u8], other: &[u8]) -> bool
    ensures { result ≡ bytes_eq text.now other.now }
{
    if text.len() != other.len() {
        return false;
    }
    let mut same = true;
    for i in 0..text.len() {
        same &= text[i] == other[i];
    }
    same
}

/// Whether a text is another one, its letters taken in lower case. Every byte is looked at, whatever those before it are.
pub(crate) fn is_same_lowered(text: &[u8], other: &[u8]) -> bool
    ensures { result ≡ bytes_eq (str_to_ascii_lowercase text.now) other.now }
{
    if text.len() != other.len() {
        return false;
    }
    let mut same = true;
    for i in 0..text.len() {
        same &= text[i].to_ascii_lowercase() == other[i];
    }
    same
}

/// Whether a text is two others one behind the other. Every byte is looked at, whatever those before it are.
pub(crate) fn is_joined(text: &[u8], front: &[u8], back: &[u8]) -> bool
    ensures { result ≡ bytes_eq text.now (front.now ++ back.now) }
{
    if text.len() < front.len() {
        return false;
    }
    let (begin, end) = text.split_at(front.len());
    let begins = is_same(begin, front);
    let ends = is_same(end, back);
    begins & ends
}
