ghost use Rattle.std.specs.Prelude.{◌≡◌};
ghost use Rattle.std.specs.List.{list_any, list_all};
ghost use Rattle.std.specs.Str.{bytes_eq};
ghost use Rattle.c_types.specs.Words as words;

/// The keywords (ISO/IEC 9899:2011, 6.4.1).
const KEYWORDS: [&str; 44] = [
    "auto",
    "break",
    "case",
    "char",
    "const",
    "continue",
    "default",
    "do",
    "double",
    "else",
    "enum",
    "extern",
    "float",
    "for",
    "goto",
    "if",
    "inline",
    "int",
    "long",
    "register",
    "restrict",
    "return",
    "short",
    "signed",
    "sizeof",
    "static",
    "struct",
    "switch",
    "typedef",
    "union",
    "unsigned",
    "void",
    "volatile",
    "while",
    "_Alignas",
    "_Alignof",
    "_Atomic",
    "_Bool",
    "_Complex",
    "_Generic",
    "_Imaginary",
    "_Noreturn",
    "_Static_assert",
    "_Thread_local",
];

const KNOWN_FUNCTIONS: [&str; 5] = ["getchar", "putchar", "printf", "exit", "abort"];

/// Whether the bytes are spelled like a name: a letter or `_`, and then letters, digits and `_`
/// (ISO/IEC 9899:2011, 6.4.2.1, without universal character names). Keywords are spelled so too.
pub fn is_word(bytes: &[u8]) -> bool
    ensures { result ≡ words.is_word bytes.now }
{
    match bytes.split_first() {
        None => false,
        Some((first, rest)) => is_letter(*first) && are_word_bytes(rest),
    }
}

fn are_word_bytes(bytes: &[u8]) -> bool
    ensures { result ≡ list_all words.is_word_byte bytes.now }
{
    bytes.iter().all(|byte| is_word_byte(*byte))
}

/// Whether the bytes are one of the 44 keywords (ISO/IEC 9899:2011, 6.4.1).
pub fn is_keyword(bytes: &[u8]) -> bool
    ensures { result ≡ words.is_keyword bytes.now }
{
    is_one_of(&KEYWORDS, bytes)
}

/// Whether the bytes are the name of a known function: `getchar`, `putchar`, `printf`, `exit` or
/// `abort`, which every program may call without a declaration.
pub fn is_known(bytes: &[u8]) -> bool
    ensures { result ≡ words.is_known bytes.now }
{
    is_one_of(&KNOWN_FUNCTIONS, bytes)
}

fn is_one_of(list: &[&str], bytes: &[u8]) -> bool
    ensures { result ≡ list_any (λ word. bytes_eq word.now bytes.now) list.now }
{
    list.iter().any(|word| word.as_bytes() == bytes)
}

/// Whether the byte is a letter or `_`.
pub fn is_letter(byte: u8) -> bool
    ensures { result ≡ words.is_letter byte }
{
    matches!(byte, b'a'..=b'z' | b'A'..=b'Z' | b'_')
}

/// Whether the byte is a decimal digit.
pub fn is_digit(byte: u8) -> bool
    ensures { result ≡ words.is_digit byte }
{
    matches!(byte, b'0'..=b'9')
}

/// Whether the byte may stand in a name: a letter, a digit or `_`.
pub fn is_word_byte(byte: u8) -> bool
    ensures { result ≡ words.is_word_byte byte }
{
    is_letter(byte) || is_digit(byte)
}
