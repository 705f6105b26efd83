// Tests of the lexer and the parser: sources with their tokens and the trees that they have, written out by hand, and
// refusals.
// Stands on fing_lexer (tokens), fing_parser (trees) and fing_syntax (phrases).
// Nothing is promised here: `show` compares a tree, written out, with a text.
#![tactic(auto)]

#[cfg(test)]
mod cases;
#[cfg(test)]
mod show;
#[cfg(test)]
mod tokens;
#[cfg(test)]
mod units;
