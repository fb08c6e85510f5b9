use crate::comparing::{is_refusal, is_text};
use quilt_types::{Code, Colour, Text};
use quilt_words::{
    Command, Item, Pairs, ParseErr, few_words, first_word, line_words, parse, refusal_text,
};
use std::alloc::{AllocError, Global};
use std::test::Fail;

/// How many pairs there are of two.
fn pair_count() -> usize {
    let mut pairs = Pairs::of(Colour(1), Colour(2));
    pairs.push(Colour(3), Colour(4));
    pairs.items().len()
}

#[test]
fn spells_refusals_and_pairs(rt: HostRuntime) {
    assert!(rt; is_text(refusal_text(rt.alloc(), Code::Long), b"no 13 long\n"));
    assert!(rt; pair_count() == 2);
}

/// What a line that asks for no further lines spells, or why it has no command.
fn parse_line(alloc: Global, format: u8, line: &[u8]) -> Result<Command, ParseErr> {
    let mut text = Text::new(alloc);
    text.push(line)?;
    parse(alloc, format, &Item::Line(text))
}

/// A format, a line and its refusal, or none.
type Case = (u8, &'static [u8], Option<Code>);

static LINES: [Case; 17] = [
    // Numbers have their ranges.
    (1, b"region a 256", Some(Code::Number)),
    (2, b"region a 65535", None),
    (2, b"region a 65536", Some(Code::Number)),
    (1, b"points p 17", Some(Code::Number)),
    (1, b"points p 0 1", Some(Code::Count)),
    (1, b"lines l 33", Some(Code::Number)),
    (1, b"rank l 1 1 0", Some(Code::Number)),
    (1, b"shift a -0 1 c", Some(Code::Number)),
    // The count of words comes before the words, and these come one after another.
    (1, b"recolour a c 1", Some(Code::Count)),
    (1, b"recolour a c 1 2 3 256", Some(Code::Number)),
    (1, b"show A 1 2 3 x", Some(Code::Name)),
    (1, b"show a 1 2 0 x", Some(Code::Number)),
    // There are lines of few words and of many.
    (1, b"  at  a 1  2 ", None),
    (1, b"recolour a c 1 2 3 4 5", Some(Code::Count)),
    (1, b"recolour a c 1 2 3 4 5 6", None),
    (1, b"line l 1 2 3 4 5 6 7", Some(Code::Count)),
    (1, b"attic a 1 2 3 4 5 6 7", Some(Code::Word)),
];

/// The first line that is refused otherwise, or none.
fn first_other(alloc: Global, cases: &'static [Case]) -> Option<&'static [u8]> {
    for (format, line, code) in cases {
        if !is_refusal(parse_line(alloc, *format, line).err(), *code) {
            return Some(line);
        }
    }
    None
}

#[test]
fn refuses_lines(rt: HostRuntime) {
    assert!(rt; first_other(rt.alloc(), &LINES).is_none());
}

/// Whether the first word of a text is this, and this stands behind it.
fn is_cut(text: &[u8], word: &[u8], rest: &[u8]) -> bool {
    match first_word(text) {
        Some((first, behind)) => first == word && behind == rest,
        None => false,
    }
}

/// How many words a line has, unless they are too many.
fn few_count(line: &[u8]) -> Option<usize> {
    match few_words(line) {
        Some(words) => Some(words.len()),
        None => None,
    }
}

/// A line of nine words.
static MANY: &[u8] = b"1 2 3 4 5 6 7 8 9";

#[test]
fn cuts_words(rt: HostRuntime) -> Result<(), Fail> {
    assert!(rt; is_cut(b"  at a ", b"at", b" a "));
    assert!(rt; few_count(b" at a  1 2 ") == Some(4) && few_count(MANY).is_none());
    assert!(rt; line_words(rt.alloc(), MANY)?.len() == 9);
    Ok(())
}

/// Whether the command sets the pixel (1, 2) to colour 255.
fn is_set(parsed: &Result<Command, ParseErr>) -> bool {
    match parsed {
        Ok(Command::Set { at, c, .. }) => at.x == 1 && at.y == 2 && c.0 == 255,
        _ => false,
    }
}

#[test]
fn parses_a_line(rt: HostRuntime) {
    assert!(rt; is_set(&parse_line(rt.alloc(), 1, b" set a 1 2 255")));
}
