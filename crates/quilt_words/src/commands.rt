//! The command that a word makes of the words behind it.
ghost use Rattle.std.specs.Prelude.{◌≡◌, ◌≤◌, ◌-◌, ◌%◌, ◌==◌, true, ℕ, [], ◌∷◌, map, length, codes};
ghost use Rattle.quilt_words.specs.Table.{Further, spelling};
ghost use Rattle.quilt_words.specs.Made.{formed, row_formed, recoloured_command, command_made, spelled_by};

use crate::command::Word;
use crate::recolour::recolour_command;
use crate::shapes::{
    made, name_colour, name_colour_rings, name_few, name_id_segment, name_number, name_pixel,
    name_pixel_colour, name_pixel_number, name_radius_name, name_shift_name, name_window,
    name_window_colour, name_window_name, nothing, one_name, three_names, two_names,
};
use crate::{Command, FurtherLines};
use quilt_types::Code;

/// The command that a word makes of the words behind it, and of what further lines spell, which goes into the command.
/// It goes into its one caller, since a command that a call gives back is copied.
#[inline(always)]
pub fn command(
    format: u8,
    word: Word,
    words: &[&[u8]],
    further: &mut FurtherLines,
) -> Result<Command, Code>
    ensures { formed format (spelled_by further.old) (spelling word) (map (λ w. w.now) words.now) ≡ result }
{
    use Command::*;

    match word {
        Word::Region => made(
            words,
            |words| name_colour(format, words),
            |(a, c)| Region { a, c },
        ),
        Word::Points => points_command(words),
        Word::Lines => made(words, |words| name_few(words, 32), |(l, t)| Lines { l, t }),
        Word::Drop => made(words, one_name, |a| Drop { a }),
        Word::Copy => made(words, two_names, |(a, b)| Copy { a, b }),
        Word::Layers => made(words, nothing, |()| Layers),
        Word::Blocks => made(words, one_name, |a| Blocks { a }),
        Word::Records => made(words, nothing, |()| Records),
        Word::Set => made(
            words,
            |words| name_pixel_colour(format, words),
            |(a, at, c)| Set { a, at, c },
        ),
        Word::Rect => made(
            words,
            |words| name_window_colour(format, words),
            |(a, w, c)| Rect { a, w, c },
        ),
        Word::Raster => {
            let rows = further.rows.take();
            made(words, one_name, |a| Raster { a, rows })
        }
        Word::At => made(words, name_pixel, |(a, at)| At { a, at }),
        Word::Show => made(words, name_window, |(a, w)| Show { a, w }),
        Word::Leaves => made(words, one_name, |a| Leaves { a }),
        Word::Union => made(words, three_names, |(a, b, c)| Union { a, b, c }),
        Word::Inter => made(words, three_names, |(a, b, c)| Inter { a, b, c }),
        Word::Diff => made(words, three_names, |(a, b, c)| Diff { a, b, c }),
        Word::Recolour => recolour_command(format, words),
        Word::Window => made(words, name_window_name, |(a, w, c)| Window { a, w, c }),
        Word::Shift => made(
            words,
            name_shift_name,
            |(a, dx, dy, c)| Shift { a, dx, dy, c },
        ),
        Word::Buffer => made(words, name_radius_name, |(a, r, c)| Buffer { a, r, c }),
        Word::Area => made(
            words,
            |words| name_colour(format, words),
            |(a, c)| Area { a, c },
        ),
        Word::Perimeter => made(
            words,
            |words| name_colour(format, words),
            |(a, c)| Perimeter { a, c },
        ),
        Word::Put => made(
            words,
            |words| name_pixel_number(words, 0, u32::MAX),
            |(p, at, label)| Put { p, at, label },
        ),
        Word::Del => made(words, name_pixel, |(p, at)| Del { p, at }),
        Word::Scatter => {
            let points = further.points.take();
            made(
                words,
                |words| name_number(words, 1, 100_000),
                |(p, _)| Scatter { p, points },
            )
        }
        Word::Find => made(words, name_pixel, |(p, at)| Find { p, at }),
        Word::Within => made(words, name_window, |(p, w)| Within { p, w }),
        Word::Line => made(words, name_id_segment, |(l, id, seg)| Line { l, id, seg }),
        Word::Unline => made(
            words,
            |words| name_number(words, 0, u32::MAX),
            |(l, id)| Unline { l, id },
        ),
        Word::Cross => made(words, name_window, |(l, w)| Cross { l, w }),
        Word::Clip => made(words, name_window, |(l, w)| Clip { l, w }),
        Word::Nearest => made(words, name_pixel, |(l, at)| Nearest { l, at }),
        Word::Over => made(words, two_names, |(l, a)| Over { l, a }),
        Word::Edition => made(words, nothing, |()| Edition),
        Word::Publish => made(words, nothing, |()| Publish),
        Word::Upgrade => made(words, nothing, |()| Upgrade),
        Word::Revert => made(words, nothing, |()| Revert),
        Word::Polygon => {
            let rings = further.rings.take();
            made(
                words,
                |words| name_colour_rings(format, words),
                |(a, c, _)| Polygon { a, c, rings },
            )
        }
        Word::Rank => made(
            words,
            |words| name_pixel_number(words, 1, 100_000),
            |(l, at, k)| Rank { l, at, k },
        ),
        Word::Crossings => made(words, two_names, |(l, m)| Crossings { l, m }),
    }
}

fn points_command(words: &[&[u8]]) -> Result<Command, Code>
    ensures { (f : ℕ) (more : Further) → formed f more (codes "points") (map (λ w. w.now) words.now) ≡ result }
{
    if words.len() == 1 {
        return made(words, one_name, |p| Command::Points { p, bucket: 1 });
    }
    made(
        words,
        |words| name_few(words, 16),
        |(p, bucket)| Command::Points { p, bucket },
    )
}
