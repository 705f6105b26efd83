// Tables of sources with their tokens, written out from the rules of the language.
use fing_lexer::{LexRefusal, Mark, What, Word, tokens};
use std::alloc::Global;
use std::process::Abort;
use std::test::Fail;

#[derive(Clone, Copy)]
enum Want {
    Word(Word),
    Mark(Mark),
    Ident(&'static [u8]),
    Int(i64),
    Text(&'static [u8]),
}

fn is(what: &What, want: Want) -> bool {
    match (what, want) {
        (What::Word(got), Want::Word(word)) => *got == word,
        (What::Mark(got), Want::Mark(mark)) => *got == mark,
        (What::Ident(got), Want::Ident(bytes)) => got.bytes() == bytes,
        (What::Int(got), Want::Int(number)) => *got == number,
        (What::Text(got), Want::Text(bytes)) => got.bytes() == bytes,
        _ => false,
    }
}

// Asserts that the source is exactly these tokens, each with its first byte and the one behind its last.
fn gives(
    rt: &impl Abort,
    alloc: Global,
    source: &[u8],
    wanted: &[(Want, u32, u32)],
) -> Result<(), Fail> {
    assert!(rt; source.len() <= 1048576);
    let found = tokens(alloc, source)?;
    assert_eq!(rt; found.len(), wanted.len());
    for (token, (want, from, to)) in found.iter().zip(wanted.iter()) {
        assert!(rt; is(&token.what, *want));
        assert_eq!(rt; (token.span.from, token.span.to), (*from, *to));
    }
    Ok(())
}

// Asserts that the source is refused.
fn refuses(rt: &impl Abort, alloc: Global, source: &[u8], wanted: LexRefusal) {
    assert!(rt; source.len() <= 1048576);
    assert_eq!(rt; tokens(alloc, source).err(), Some(wanted));
}

const WORDS: [(&[u8], Word); 32] = [
    (b"case", Word::KwCase),
    (b"of", Word::KwOf),
    (b"inj", Word::KwInj),
    (b"data", Word::KwData),
    (b"roll", Word::KwRoll),
    (b"unroll", Word::KwUnroll),
    (b"val", Word::KwVal),
    (b"type", Word::KwType),
    (b"module", Word::KwModule),
    (b"signature", Word::KwSignature),
    (b"include", Word::KwInclude),
    (b"struct", Word::KwStruct),
    (b"sig", Word::KwSig),
    (b"end", Word::KwEnd),
    (b"let", Word::KwLet),
    (b"in", Word::KwIn),
    (b"fun", Word::KwFun),
    (b"gen", Word::KwGen),
    (b"fix", Word::KwFix),
    (b"if", Word::KwIf),
    (b"then", Word::KwThen),
    (b"else", Word::KwElse),
    (b"pack", Word::KwPack),
    (b"unpack", Word::KwUnpack),
    (b"from", Word::KwFrom),
    (b"where", Word::KwWhere),
    (b"true", Word::KwTrue),
    (b"false", Word::KwFalse),
    (b"Int", Word::KwInt),
    (b"Bool", Word::KwBool),
    (b"Text", Word::KwText),
    (b"Type", Word::KwKind),
];

const MARKS: [(&[u8], Mark); 21] = [
    (b"(", Mark::LeftParen),
    (b")", Mark::RightParen),
    (b"{", Mark::LeftBrace),
    (b"}", Mark::RightBrace),
    (b"[", Mark::LeftBracket),
    (b"]", Mark::RightBracket),
    (b".", Mark::Dot),
    (b",", Mark::Comma),
    (b":", Mark::Colon),
    (b":>", Mark::Seal),
    (b"=", Mark::Equal),
    (b"=>", Mark::DoubleArrow),
    (b"->", Mark::Arrow),
    (b"#", Mark::Hash),
    (b"+", Mark::Plus),
    (b"-", Mark::Minus),
    (b"*", Mark::Star),
    (b"/", Mark::Slash),
    (b"%", Mark::Percent),
    (b"<", Mark::Less),
    (b"==", Mark::EqualEqual),
];

#[test]
fn each_word_and_mark_is_one_token(rt: HostRuntime) -> Result<(), Fail> {
    for (spelling, word) in WORDS {
        let to = u32::try_from(spelling.len())?;
        gives(&rt, rt.alloc(), spelling, &[(Want::Word(word), 0, to)])?;
    }
    for (spelling, mark) in MARKS {
        let to = u32::try_from(spelling.len())?;
        gives(&rt, rt.alloc(), spelling, &[(Want::Mark(mark), 0, to)])?;
    }
    Ok(())
}

#[test]
fn sources_have_their_longest_tokens(rt: HostRuntime) -> Result<(), Fail> {
    gives(&rt, rt.alloc(), b"", &[])?;
    gives(
        &rt,
        rt.alloc(),
        b" \t\n\r -- all \x7f\xff \" of this\n--",
        &[],
    )?;
    gives(
        &rt,
        rt.alloc(),
        b"vals int _ x'1",
        &[
            (Want::Ident(b"vals"), 0, 4),
            (Want::Ident(b"int"), 5, 8),
            (Want::Ident(b"_"), 9, 10),
            (Want::Ident(b"x'1"), 11, 14),
        ],
    )?;
    gives(
        &rt,
        rt.alloc(),
        b"0 007 ~5x 9223372036854775807 ~9223372036854775807 ~0",
        &[
            (Want::Int(0), 0, 1),
            (Want::Int(7), 2, 5),
            (Want::Int(-5), 6, 8),
            (Want::Ident(b"x"), 8, 9),
            (Want::Int(9223372036854775807), 10, 29),
            (Want::Int(-9223372036854775807), 30, 50),
            (Want::Int(0), 51, 53),
        ],
    )?;
    gives(
        &rt,
        rt.alloc(),
        b"\"\" \"a\\\"b\" \"\\\\\\n\"\" ~--\"",
        &[
            (Want::Text(b""), 0, 2),
            (Want::Text(b"a\"b"), 3, 9),
            (Want::Text(b"\\\n"), 10, 16),
            (Want::Text(b" ~--"), 16, 22),
        ],
    )?;
    gives(
        &rt,
        rt.alloc(),
        b":::> === =-> -=> - -",
        &[
            (Want::Mark(Mark::Colon), 0, 1),
            (Want::Mark(Mark::Colon), 1, 2),
            (Want::Mark(Mark::Seal), 2, 4),
            (Want::Mark(Mark::EqualEqual), 5, 7),
            (Want::Mark(Mark::Equal), 7, 8),
            (Want::Mark(Mark::Equal), 9, 10),
            (Want::Mark(Mark::Arrow), 10, 12),
            (Want::Mark(Mark::Minus), 13, 14),
            (Want::Mark(Mark::DoubleArrow), 14, 16),
            (Want::Mark(Mark::Minus), 17, 18),
            (Want::Mark(Mark::Minus), 19, 20),
        ],
    )?;
    gives(
        &rt,
        rt.alloc(),
        b"1--2 -> 3\n-->\n4",
        &[(Want::Int(1), 0, 1), (Want::Int(4), 14, 15)],
    )
}

const REFUSED: [(&[u8], LexRefusal); 21] = [
    (b"val x = 1 ; 2", LexRefusal::BadByte { at: 10 }),
    (b"x ==> y", LexRefusal::BadByte { at: 4 }),
    (b"~", LexRefusal::BadByte { at: 0 }),
    (b"x ~~5", LexRefusal::BadByte { at: 2 }),
    (b"~ 5", LexRefusal::BadByte { at: 0 }),
    (b"'x", LexRefusal::BadByte { at: 0 }),
    (b"x\x7f", LexRefusal::BadByte { at: 1 }),
    (b"x \xc3\xa9", LexRefusal::BadByte { at: 2 }),
    (b"\x0b", LexRefusal::BadByte { at: 0 }),
    (b"-- a\n@", LexRefusal::BadByte { at: 5 }),
    (b"val s = \"ab", LexRefusal::BadText { at: 8 }),
    (b"\"a\\tb\"", LexRefusal::BadText { at: 0 }),
    (b"\"a\nb\"", LexRefusal::BadText { at: 0 }),
    (b"x \"\\\"", LexRefusal::BadText { at: 2 }),
    (b"\"\x7f\"", LexRefusal::BadText { at: 0 }),
    (b"\"\xc3\xa9\"", LexRefusal::BadText { at: 0 }),
    (b"val x = 9223372036854775808", LexRefusal::Wide { at: 8 }),
    (b"x ~9223372036854775808", LexRefusal::Wide { at: 2 }),
    (b"18446744073709551617", LexRefusal::Wide { at: 0 }),
    (b"9223372036854775808 ;", LexRefusal::Wide { at: 0 }),
    (b"; 9223372036854775808", LexRefusal::BadByte { at: 0 }),
];

#[test]
fn the_first_bad_place_is_refused(rt: HostRuntime) {
    for (source, refusal) in REFUSED {
        refuses(&rt, rt.alloc(), source, refusal);
    }
}

// `val x = `, some openers, a part, and some closers.
fn nested(alloc: Global, depth: usize, part: &[u8]) -> Result<Vec<u8>, Fail> {
    let mut source = b"val x = ".to_vec(alloc)?;
    source.extend_from_slice(&vec![in alloc; b'('; depth]?)?;
    source.extend_from_slice(part)?;
    source.extend_from_slice(&vec![in alloc; b')'; depth]?)?;
    Ok(source)
}

#[test]
fn the_nest_has_a_limit(rt: HostRuntime) -> Result<(), Fail> {
    let accepted = nested(rt.alloc(), 996, b"1")?;
    assert!(rt; accepted.len() <= 1048576);
    assert_eq!(rt; tokens(rt.alloc(), &accepted)?.len(), 1996);
    let deeper = [
        (998, b"".as_slice(), LexRefusal::TooDeep { at: 1005 }),
        (997, b"1", LexRefusal::TooDeep { at: 1005 }),
        (997, b"9223372036854775808", LexRefusal::Wide { at: 1005 }),
    ];
    for (depth, part, refusal) in deeper {
        refuses(&rt, rt.alloc(), &nested(rt.alloc(), depth, part)?, refusal);
    }
    // Without a word that begins a binding each token counts, and a closer of the whole file takes nothing away.
    refuses(
        &rt,
        rt.alloc(),
        &vec![in rt.alloc(); b')'; 1001]?,
        LexRefusal::TooDeep { at: 1000 },
    );
    Ok(())
}

// So many marks that no further token that begins no binding may stand behind them, and then a word.
fn behind_marks(alloc: Global, word: &[u8]) -> Result<Vec<u8>, Fail> {
    let mut source = vec![in alloc; b'.'; 1000]?;
    source.extend_from_slice(word)?;
    Ok(source)
}

#[test]
fn tokens_are_counted_from_the_last_word_that_begins_a_binding(
    rt: HostRuntime,
) -> Result<(), Fail> {
    for word in [b"type".as_slice(), b"data", b"in"] {
        let source = behind_marks(rt.alloc(), word)?;
        assert!(rt; source.len() <= 1048576);
        assert_eq!(rt; tokens(rt.alloc(), &source)?.len(), 1001);
    }
    let refusal = LexRefusal::TooDeep { at: 1000 };
    refuses(
        &rt,
        rt.alloc(),
        &behind_marks(rt.alloc(), b"roll")?,
        refusal,
    );
    refuses(
        &rt,
        rt.alloc(),
        &behind_marks(rt.alloc(), b"case")?,
        refusal,
    );
    Ok(())
}
