ghost use Rattle.std.specs.Prelude.{◌≡◌};
ghost use Rattle.qm_lex.specs.Bytes.{is_blank, begins_name, continues_name, begins_exponent, is_sign};

/// Whether the byte is a space, a tab, a CR or an LF.
pub fn is_blank(byte: u8) -> bool
    ensures { result ≡ is_blank byte }
{
    byte == b' ' || byte == b'\t' || byte == b'\r' || byte == b'\n'
}

/// Whether the byte is a letter or an underscore.
pub fn begins_name(byte: u8) -> bool
    ensures { result ≡ begins_name byte }
{
    byte.is_ascii_alphabetic() || byte == b'_'
}

/// Whether the byte is a letter, a digit or one of the marks that names may have.
pub fn continues_name(byte: u8) -> bool
    ensures { result ≡ continues_name byte }
{
    byte.is_ascii_alphanumeric() || b"_.[](){}#$%&@!~'".contains(&byte)
}

/// Whether the byte is an e in either case.
pub fn begins_exponent(byte: u8) -> bool
    ensures { result ≡ begins_exponent byte }
{
    byte == b'e' || byte == b'E'
}

/// Whether the byte is a plus or a minus.
pub fn is_sign(byte: u8) -> bool
    ensures { result ≡ is_sign byte }
{
    byte == b'+' || byte == b'-'
}
