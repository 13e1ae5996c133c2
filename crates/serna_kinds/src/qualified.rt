ghost use Rattle.std.specs.Prelude.{◌≡◌, ◌<◌, option_map, IfSome, IsNone};
ghost use Rattle.std.specs.List.{list_all};
ghost use Rattle.serna_kinds.specs.Qualified.{is_letter, is_digit, begins_name, continues_name, is_local_name, parted, prefix_of, local_of, is_name};

/// A name as it is written, cut at its first colon (Namespaces in XML 1.0, section 4: QName). Without a colon the prefix is
/// empty.
#[derive(Clone, Copy, Debug)]
pub struct WrittenName<'a> {
    pub prefix: &'a str,
    pub local: &'a str,
}

fn is_letter(b: u8) -> bool
    ensures { result ≡ is_letter b }
{
    matches!(b, b'A'..=b'Z' | b'a'..=b'z')
}

/// Whether a byte is an ASCII digit.
pub fn is_digit(b: u8) -> bool
    ensures { result ≡ is_digit b }
{
    b.is_ascii_digit()
}

/// Whether a local name may begin with a byte: with an ASCII letter, `_` or a byte of a character past ASCII (after Namespaces
/// in XML 1.0, section 2: NCName).
pub fn begins_name(b: u8) -> bool
    ensures { result ≡ begins_name b }
{
    is_letter(b) || b == b'_' || b >= 128
}

/// Whether a local name may go on with a byte: with one that it may begin with, a digit, `-` or `.`.
pub fn continues_name(b: u8) -> bool
    ensures { result ≡ continues_name b }
{
    begins_name(b) || is_digit(b) || matches!(b, b'-' | b'.')
}

fn are_continuing(bytes: &[u8]) -> bool
    ensures { result ≡ list_all continues_name bytes.now }
{
    bytes.iter().all(|b| continues_name(*b))
}

fn is_local_name(name: &str) -> bool
    ensures { result ≡ is_local_name name.now }
{
    match name.as_bytes().split_first() {
        Some((first, rest)) => begins_name(*first) && are_continuing(rest),
        None => false,
    }
}

/// What stands before the first such character of a text and behind it. `mark` is ASCII.
pub fn parted(mark: char, text: &str) -> Option<(&str, &str)>
    requires { mark < 128 }
    ensures { option_map (λ x. (x.0.now, x.1.now)) result ≡ parted mark text.now }
{
    text.split_once(mark)
}

impl<'a> WrittenName<'a> {
    /// The parts of a name as it is written, whether or not it is one.
    pub fn parts(text: &'a str) -> WrittenName<'a>
        ensures prefix { result.prefix.now ≡ prefix_of text.now }
        ensures local { result.local.now ≡ local_of text.now }
    {
        match parted(':', text) {
            Some((prefix, local)) => WrittenName { prefix, local },
            None => WrittenName {
                prefix: "",
                local: text,
            },
        }
    }
}

/// Whether a text is a name: a local name, or a prefix, a colon and a local name. These begin with an ASCII letter, `_` or a
/// character past ASCII, and go on with these, digits, `-` and `.`.
pub fn is_name(text: &str) -> bool
    ensures { result ≡ is_name text.now }
{
    match parted(':', text) {
        Some((prefix, local)) => is_local_name(prefix) && is_local_name(local),
        None => is_local_name(text),
    }
}
