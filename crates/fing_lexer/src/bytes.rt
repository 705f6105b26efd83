// Classes of bytes, keywords, marks and the values of digits.
ghost use Rattle.std.specs.Prelude.{◌≡◌, ◌<◌, ◌≤◌, ◌^◌, [], ◌∷◌, length, map, IfSome, MatchOption, pos, neg_ℤ};
ghost use Rattle.std.specs.List.{prefix_len};
ghost use Rattle.std.specs.Char as char;
ghost use Rattle.fing_lexer.specs.Lexeme as plain;
ghost use Rattle.fing_lexer.specs.Inner.Lexing as steps;
ghost use Rattle.fing_lexer.specs.Tokens as whole;
ghost use Rattle.fing_lexer.specs.declared.token.What.TheVariants as number;

use crate::token::{Mark, What, Word};

const WORDS: [(&[u8], Word); 32] = [
    (b"val", Word::KwVal),
    (b"type", Word::KwType),
    (b"module", Word::KwModule),
    (b"signature", Word::KwSignature),
    (b"include", Word::KwInclude),
    (b"struct", Word::KwStruct),
    (b"sig", Word::KwSig),
    (b"end", Word::KwEnd),
    (b"let", Word::KwLet),
    (b"in", Word::KwIn),
    (b"fun", Word::KwFun),
    (b"gen", Word::KwGen),
    (b"fix", Word::KwFix),
    (b"if", Word::KwIf),
    (b"then", Word::KwThen),
    (b"else", Word::KwElse),
    (b"pack", Word::KwPack),
    (b"unpack", Word::KwUnpack),
    (b"from", Word::KwFrom),
    (b"where", Word::KwWhere),
    (b"true", Word::KwTrue),
    (b"false", Word::KwFalse),
    (b"Int", Word::KwInt),
    (b"Bool", Word::KwBool),
    (b"Text", Word::KwText),
    (b"Type", Word::KwKind),
    (b"case", Word::KwCase),
    (b"of", Word::KwOf),
    (b"inj", Word::KwInj),
    (b"data", Word::KwData),
    (b"roll", Word::KwRoll),
    (b"unroll", Word::KwUnroll),
];

fn is_blank(byte: u8) -> bool
    ensures { result ≡ whole.is_blank byte }
{
    byte == b' ' || byte == b'\t' || byte == b'\n' || byte == b'\r'
}

/// Whether a name or a keyword can begin with the byte.
pub fn is_name_start(byte: u8) -> bool
    ensures { result ≡ plain.is_name_start byte }
{
    byte.is_ascii_alphabetic() || byte == b'_'
}

fn is_name_byte(byte: u8) -> bool
    ensures { result ≡ plain.is_name_byte byte }
{
    is_name_start(byte) || byte.is_ascii_digit() || byte == b'\''
}

fn is_plain(byte: u8) -> bool
    ensures { result ≡ plain.is_plain byte }
{
    (32..=126).contains(&byte) && byte != b'"'
}

fn escaped(byte: u8) -> Option<u8>
    ensures { result ≡ plain.escaped byte }
{
    match byte {
        b'"' | b'\\' => Some(byte),
        b'n' => Some(b'\n'),
        _ => None,
    }
}

/// The byte of a text that is spelled at the start, and how many bytes spell it.
pub fn spelled(bytes: &[u8]) -> Option<(u8, usize)>
    ensures value { result ≡ steps.spelled bytes.now }
    ensures size { IfSome result (λ s. (0 < s.1) × (s.1 ≤ length bytes.now)) }
{
    match bytes {
        [b'\\', escape, ..] => escaped(*escape).map(|byte| (byte, 2)),
        [byte, ..] if is_plain(*byte) => Some((*byte, 1)),
        _ => None,
    }
}

fn line_len(bytes: &[u8]) -> usize
    ensures { result ≡ whole.line_length bytes.now }
{
    bytes.iter().take_while(|byte| **byte != b'\n').count()
}

/// How many bytes a blank or a comment at the start has, and 0 where there is neither.
#[tactic(auto, unfolding(crate::specs::Tokens::skipped))]
pub fn skip_len(bytes: &[u8]) -> usize
    ensures { result ≡ whole.skipped bytes.now }
{
    match bytes {
        [first, ..] if is_blank(*first) => 1,
        [b'-', b'-', ..] => line_len(bytes),
        _ => 0,
    }
}

/// How many bytes of a name stand at the start.
pub fn name_len(bytes: &[u8]) -> usize
    ensures value { result ≡ prefix_len plain.is_name_byte bytes.now }
    ensures within { result ≤ length bytes.now }
{
    bytes.iter().take_while(|byte| is_name_byte(**byte)).count()
}

/// How many digits stand at the start.
pub fn digits_len(bytes: &[u8]) -> usize
    ensures value { result ≡ prefix_len char.is_ascii_digit bytes.now }
    ensures within { result ≤ length bytes.now }
{
    bytes
        .iter()
        .take_while(|byte| byte.is_ascii_digit())
        .count()
}

fn entry(mut table: &[(&[u8], Word)], bytes: &[u8]) -> Option<Word>
    ensures { result ≡ plain.entry (map (λ e. (e.0.now, e.1)) table.entry.now) bytes.now }
{
    while let [first, rest @ ..] = table {
        if bytes == first.0 {
            return Some(first.1);
        }
        table = rest;
    }
    None
}

/// The keyword that exactly these bytes are.
#[tactic(auto, unfolding(crate::specs::Lexeme::words))]
pub fn word(bytes: &[u8]) -> Option<Word>
    ensures { result ≡ plain.entry plain.words bytes.now }
{
    entry(&WORDS, bytes)
}

/// The mark of the first two bytes.
#[tactic(auto, unfolding(crate::specs::Lexeme::marks))]
pub fn long_mark(bytes: &[u8]) -> Option<Mark>
    ensures { result ≡ steps.long_mark bytes.now }
{
    match bytes {
        [b':', b'>', ..] => Some(Mark::Seal),
        [b'=', b'>', ..] => Some(Mark::DoubleArrow),
        [b'-', b'>', ..] => Some(Mark::Arrow),
        [b'=', b'=', ..] => Some(Mark::EqualEqual),
        _ => None,
    }
}

/// The mark of one byte.
#[tactic(auto, unfolding(crate::specs::Lexeme::marks))]
pub fn short_mark(first: u8) -> Option<Mark>
    ensures { result ≡ plain.entry plain.marks (first ∷ []) }
{
    match first {
        b'(' => Some(Mark::LeftParen),
        b')' => Some(Mark::RightParen),
        b'{' => Some(Mark::LeftBrace),
        b'}' => Some(Mark::RightBrace),
        b'[' => Some(Mark::LeftBracket),
        b']' => Some(Mark::RightBracket),
        b'.' => Some(Mark::Dot),
        b',' => Some(Mark::Comma),
        b':' => Some(Mark::Colon),
        b'=' => Some(Mark::Equal),
        b'#' => Some(Mark::Hash),
        b'+' => Some(Mark::Plus),
        b'-' => Some(Mark::Minus),
        b'*' => Some(Mark::Star),
        b'/' => Some(Mark::Slash),
        b'%' => Some(Mark::Percent),
        b'<' => Some(Mark::Less),
        _ => None,
    }
}

/// The value of decimal digits, where it is at most 9223372036854775807, and else `None`. A byte that is no digit counts
/// as its number less 48, one below 48 as 0.
#[tactic(auto, using(crate::proofs::Digits::digits_step, crate::proofs::Digits::digits_end, crate::proofs::Digits::digits_grow))]
pub fn digits(bytes: &[u8]) -> Option<u64>
    ensures { MatchOption result (2 ^ 63 ≤ plain.value_behind 0 bytes.now) (λ d. (d ≡ plain.value_behind 0 bytes.now) × (d < 2 ^ 63)) }
{
    let mut value: u64 = 0;
    for byte in bytes {
        let digit = u64::from(byte.saturating_sub(b'0'));
        if value > (9223372036854775807 - digit) / 10 {
            return None;
        }
        value = 10 * value + digit;
    }
    Some(value)
}

/// The number token of a value with no sign.
pub fn positive(value: u64) -> What
    requires { value < 2 ^ 63 }
    ensures { result ≡ number.Int (pos value) }
{
    What::Int(value as i64)
}

/// The number token of a value behind a `~`.
pub fn negative(value: u64) -> What
    requires { value < 2 ^ 63 }
    ensures { result ≡ number.Int (neg_ℤ (pos value)) }
{
    What::Int(-(value as i64))
}
