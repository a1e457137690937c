// Which names a function may have: identifiers of C that neither C nor the text itself has taken.

ghost use Rattle.std.specs.Prelude.{◌≡◌};
ghost use Rattle.std.specs.List.{list_all, list_any};
ghost use Rattle.std.specs.Str.{bytes_eq};
ghost use Rattle.fast_main.specs.Options.Names.{is_digit, is_letter, is_name_byte, begins_with_digit, is_name, is_among, words_of_c, words_of_text, is_table, is_type_of_c, is_macro_of_c, is_reserved, is_taken, is_free_name};

// Words of C from 1999 to 2023 and of GNU, and limits of stdint.h.
const WORDS_OF_C: [&str; 59] = [
    "alignas",
    "alignof",
    "asm",
    "auto",
    "bool",
    "break",
    "case",
    "char",
    "const",
    "constexpr",
    "continue",
    "default",
    "do",
    "double",
    "else",
    "enum",
    "extern",
    "false",
    "float",
    "for",
    "goto",
    "if",
    "inline",
    "int",
    "long",
    "main",
    "nullptr",
    "register",
    "restrict",
    "return",
    "short",
    "signed",
    "sizeof",
    "static",
    "static_assert",
    "struct",
    "switch",
    "thread_local",
    "true",
    "typedef",
    "typeof",
    "typeof_unqual",
    "union",
    "unsigned",
    "void",
    "volatile",
    "while",
    "i386",
    "linux",
    "unix",
    "PTRDIFF_MAX",
    "PTRDIFF_MIN",
    "SIG_ATOMIC_MAX",
    "SIG_ATOMIC_MIN",
    "SIZE_MAX",
    "WCHAR_MAX",
    "WCHAR_MIN",
    "WINT_MAX",
    "WINT_MIN",
];

// The text's functions and types, and its macros.
const WORDS_OF_TEXT: [&str; 49] = [
    "add",
    "halves",
    "high",
    "least",
    "load",
    "low",
    "moduli",
    "mul",
    "mul_part",
    "neg",
    "part",
    "reduced",
    "reduced_part",
    "splat",
    "store",
    "sub",
    "swap",
    "tile",
    "unaligned",
    "vec",
    "wide",
    "widened",
    "word",
    "BITS",
    "BY",
    "CHECK",
    "EACH",
    "EXCHANGE",
    "EXCHANGED",
    "FIRST",
    "FMA",
    "HALF",
    "INLINE",
    "LANES",
    "LAST",
    "LOW",
    "LOW52",
    "LOWER",
    "M",
    "MINIMUM",
    "P",
    "PART",
    "PARTS",
    "PICKED",
    "ROUGH",
    "TOP_BIT",
    "UPPER",
    "V",
    "WORDS",
];

fn is_digit(byte: u8) -> bool
    ensures { result ≡ is_digit byte }
{
    48 <= byte && byte <= 57
}

fn is_letter(byte: u8) -> bool
    ensures { result ≡ is_letter byte }
{
    (97 <= byte && byte <= 122) || (65 <= byte && byte <= 90)
}

fn is_name_byte(byte: u8) -> bool
    ensures { result ≡ is_name_byte byte }
{
    is_letter(byte) || is_digit(byte) || byte == 95
}

fn begins_with_digit(name: &[u8]) -> bool
    ensures { result ≡ begins_with_digit name.now }
{
    match name.first() {
        Some(byte) => is_digit(*byte),
        None => false,
    }
}

fn are_name_bytes(name: &[u8]) -> bool
    ensures { result ≡ list_all is_name_byte name.now }
{
    for byte in name {
        if !is_name_byte(*byte) {
            return false;
        }
    }
    true
}

/// Whether the bytes are an identifier of C, of at most 64.
fn is_name(name: &[u8]) -> bool
    ensures { result ≡ is_name name.now }
{
    !name.is_empty() && name.len() <= 64 && !begins_with_digit(name) && are_name_bytes(name)
}

fn is_among(words: &[&str], name: &str) -> bool
    ensures { result ≡ list_any (λ word. bytes_eq word.now name.now) words.now }
{
    for word in words {
        if *word == name {
            return true;
        }
    }
    false
}

fn is_word_of_c(name: &str) -> bool
    ensures { result ≡ is_among words_of_c name.now }
{
    let words = WORDS_OF_C;
    is_among(words.as_slice(), name)
}

fn is_word_of_text(name: &str) -> bool
    ensures { result ≡ is_among words_of_text name.now }
{
    let words = WORDS_OF_TEXT;
    is_among(words.as_slice(), name)
}

fn are_digits(number: &[u8]) -> bool
    ensures { result ≡ list_all is_digit number.now }
{
    for byte in number {
        if !is_digit(*byte) {
            return false;
        }
    }
    true
}

// Whether it is a table of the text, as t0 or u12.
fn is_table(name: &[u8]) -> bool
    ensures { result ≡ is_table name.now }
{
    match name.split_first() {
        Some((byte, number)) => (*byte == 116 || *byte == 117)
            && !number.is_empty()
            && are_digits(number),
        None => false,
    }
}

fn is_type_of_c(name: &[u8]) -> bool
    ensures { result ≡ is_type_of_c name.now }
{
    (name.starts_with(b"int") || name.starts_with(b"uint")) && name.ends_with(b"_t")
}

fn is_macro_of_c(name: &[u8]) -> bool
    ensures { result ≡ is_macro_of_c name.now }
{
    (name.starts_with(b"INT") || name.starts_with(b"UINT"))
        && (name.ends_with(b"_MAX")
            || name.ends_with(b"_MIN")
            || name.ends_with(b"_WIDTH")
            || name.ends_with(b"_C"))
}

fn is_reserved(name: &[u8]) -> bool
    ensures { result ≡ is_reserved name.now }
{
    name.starts_with(b"_") || is_type_of_c(name) || is_macro_of_c(name)
}

fn is_taken(name: &str) -> bool
    ensures { result ≡ is_taken name.now }
{
    is_word_of_c(name)
        || is_word_of_text(name)
        || is_table(name.as_bytes())
        || is_reserved(name.as_bytes())
}

/// Whether a function may have the name.
pub(crate) fn is_free_name(name: &str) -> bool
    ensures { result ≡ is_free_name name.now }
{
    is_name(name.as_bytes()) && !is_taken(name)
}
