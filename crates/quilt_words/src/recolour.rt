//! The command that gives colours new ones.
ghost use Rattle.std.specs.Prelude.{◌≡◌, ◌≤◌, ◌-◌, ◌*◌, ◌/◌, ℕ, true, [], ◌∷◌, map, length, Ok, Err, IfOk};
ghost use Rattle.quilt_words.specs.Table.{Further};
ghost use Rattle.quilt_words.specs.Made.{recoloured_command, has_pairs};
ghost use Rattle.quilt_words.specs.Pairs.{pairs_in, ReadsPair};

use crate::arguments::{most_colour, number_of, parse_name};
use crate::{Command, Pairs};
use quilt_types::{Code, Colour, Name};

/// The command that makes a layer of another by 1 to 16 pairs of colours.
pub fn recolour_command(format: u8, words: &[&[u8]]) -> Result<Command, Code>
    ensures { (more : Further) → recoloured_command format more (map (λ w. w.now) words.now) ≡ result }
{
    if !is_number_of_words(words.len()) {
        return Err(Code::Count);
    }
    let a = parse_name(words[0])?;
    let c = parse_name(words[1])?;
    let pairs = parse_pairs(format, &words[2..])?;
    Ok(Command::Recolour { a, c, pairs })
}

/// Whether so many words are two layers and from 1 to 16 pairs.
fn is_number_of_words(count: usize) -> bool
    ensures { result ≡ has_pairs count }
{
    count >= 4 && count <= 34 && count % 2 == 0
}

/// One pair of colours: an old one, and what it becomes.
fn parse_pair(format: u8, o: &[u8], n: &[u8]) -> Result<(Colour, Colour), Code>
    ensures { ReadsPair format result o.now n.now }
{
    let most = most_colour(format);
    match (number_of(0, most, o), number_of(0, most, n)) {
        (Some(o), Some(n)) => Ok((Colour(o as u16), Colour(n as u16))),
        _ => Err(Code::Number),
    }
}

/// From 1 to 16 pairs of colours.
fn parse_pairs(format: u8, words: &[&[u8]]) -> Result<Pairs, Code>
    requires few { length words.now ≤ 32 }
    requires some { 2 ≤ length words.now }
    requires even { (length words.now / 2) * 2 ≡ length words.now }
    ensures { pairs_in format (map (λ w. w.now) words.now) ≡ result }
{
    let (o, n) = parse_pair(format, words[0], words[1])?;
    let mut pairs = Pairs::of(o, n);
    let mut i = 2;
    while i < words.len() {
        let (o, n) = parse_pair(format, words[i], words[i + 1])?;
        pairs.push(o, n);
        i += 2;
    }
    Ok(pairs)
}
