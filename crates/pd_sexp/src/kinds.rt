// The kinds of byte.
ghost use Rattle.std.specs.Prelude.{◌≡◌};
ghost use Rattle.pd_sexp.specs.Bytes as bytes;

/// Space, tab, CR and LF.
pub fn is_blank(b: u8) -> bool
    ensures { result ≡ bytes.is_blank b }
{
    b == b' ' || b == b'\t' || b == b'\r' || b == b'\n'
}

/// A byte of words.
pub fn is_letter(b: u8) -> bool
    ensures { result ≡ bytes.is_letter b }
{
    33 <= b && b <= 126 && !(b == b'(' || b == b')' || b == b';')
}

/// An ASCII capital as a small letter, each other byte as it is.
pub fn lowered(b: u8) -> u8
    ensures { result ≡ bytes.lowered b }
{
    if 65 <= b && b <= 90 { b + 32 } else { b }
}
