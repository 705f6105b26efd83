// All terminals of the grammar, with what they are called.
use fing_lexer::{Mark, Word};
use omega_kinds::Mem;
use parse_grammar::grammar::Terminal;
use std::alloc::Global;

// The marks, with their spellings in quotes.
const MARKS: [(Mark, &str); 21] = [
    (Mark::LeftParen, "`(`"),
    (Mark::RightParen, "`)`"),
    (Mark::LeftBrace, "`{`"),
    (Mark::RightBrace, "`}`"),
    (Mark::LeftBracket, "`[`"),
    (Mark::RightBracket, "`]`"),
    (Mark::Dot, "`.`"),
    (Mark::Comma, "`,`"),
    (Mark::Colon, "`:`"),
    (Mark::Seal, "`:>`"),
    (Mark::Equal, "`=`"),
    (Mark::DoubleArrow, "`=>`"),
    (Mark::Arrow, "`->`"),
    (Mark::Hash, "`#`"),
    (Mark::Plus, "`+`"),
    (Mark::Minus, "`-`"),
    (Mark::Star, "`*`"),
    (Mark::Slash, "`/`"),
    (Mark::Percent, "`%`"),
    (Mark::Less, "`<`"),
    (Mark::EqualEqual, "`==`"),
];

// The words, with their spellings in quotes.
const WORDS: [(Word, &str); 32] = [
    (Word::KwVal, "`val`"),
    (Word::KwType, "`type`"),
    (Word::KwModule, "`module`"),
    (Word::KwSignature, "`signature`"),
    (Word::KwInclude, "`include`"),
    (Word::KwStruct, "`struct`"),
    (Word::KwSig, "`sig`"),
    (Word::KwEnd, "`end`"),
    (Word::KwLet, "`let`"),
    (Word::KwIn, "`in`"),
    (Word::KwFun, "`fun`"),
    (Word::KwGen, "`gen`"),
    (Word::KwFix, "`fix`"),
    (Word::KwIf, "`if`"),
    (Word::KwThen, "`then`"),
    (Word::KwElse, "`else`"),
    (Word::KwPack, "`pack`"),
    (Word::KwUnpack, "`unpack`"),
    (Word::KwFrom, "`from`"),
    (Word::KwWhere, "`where`"),
    (Word::KwTrue, "`true`"),
    (Word::KwFalse, "`false`"),
    (Word::KwInt, "`Int`"),
    (Word::KwBool, "`Bool`"),
    (Word::KwText, "`Text`"),
    (Word::KwKind, "`Type`"),
    (Word::KwCase, "`case`"),
    (Word::KwOf, "`of`"),
    (Word::KwInj, "`inj`"),
    (Word::KwData, "`data`"),
    (Word::KwRoll, "`roll`"),
    (Word::KwUnroll, "`unroll`"),
];

/// Each terminal with what it is called: a mark or a word by its spelling in quotes. `Err` is out of memory.
pub(crate) fn terminals(alloc: Global) -> Result<Vec<(Terminal, &'static str)>, Mem> {
    let mut all = Vec::new(alloc);
    all.push((Terminal::Name, "a name"))?;
    all.push((Terminal::Number, "a number"))?;
    all.push((Terminal::Text, "a string"))?;
    for (mark, called) in &MARKS {
        all.push((Terminal::Mark(*mark), *called))?;
    }
    for (word, called) in &WORDS {
        all.push((Terminal::Word(*word), *called))?;
    }
    Ok(all)
}
