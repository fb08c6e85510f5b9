//! The arguments of commands, by what they are: each function reads them, or answers the first refusal.
ghost use Rattle.std.specs.Prelude.{◌≡◌, ◌≤◌, ◌<◌, ◌^◌, ℕ, [], ◌∷◌, map, IfOk};
ghost use Rattle.std.specs.Fn.{FnOnceReturnsAt};
ghost use Rattle.quilt_words.specs.Table.{A_name, A_number, A_signed, Called, Number, Signed, colour, coordinate, extent, label};
ghost use Rattle.quilt_words.specs.Fitting.{IsWithin};
ghost use Rattle.quilt_words.specs.Parsing.{MakesOf, ReadsOne, counted};

use crate::Command;
use crate::arguments::{
    parse_colour, parse_coordinate, parse_extent, parse_few, parse_name, parse_number, parse_signed,
};
use quilt_types::{Code, Colour, Name, Pixel, Seg, Window};

/// The command made of what a function reads of the words, or the refusal.
/// It goes into no caller: a function clears the places of all that it names when it begins, and so would those of each row for each line.
#[inline(never)]
pub fn made<A, R: FnOnce(&[&[u8]]) -> Result<A, Code>, F: FnOnce(A) -> Command>(
    words: &[&[u8]],
    read: R,
    make: F,
) -> Result<Command, Code>
    requires read { R.IsAlwaysCallable read }
    requires make { F.IsAlwaysCallable make }
    ensures { MakesOf (λ r. FnOnceReturnsAt R.FnOnce read words.now r) (F.post make) result }
{
    Ok(make(read(words)?))
}

/// No arguments.
pub fn nothing(words: &[&[u8]]) -> Result<(), Code>
    ensures { ReadsOne (λ v. []) result (counted [] (map (λ w. w.now) words.now)) }
{
    match words {
        [] => Ok(()),
        _ => Err(Code::Count),
    }
}

/// A layer.
pub fn one_name(words: &[&[u8]]) -> Result<Name, Code>
    ensures { ReadsOne (λ v. Called v ∷ []) result (counted (A_name ∷ []) (map (λ w. w.now) words.now)) }
{
    match words {
        [a] => parse_name(a),
        _ => Err(Code::Count),
    }
}

/// Two layers.
pub fn two_names(words: &[&[u8]]) -> Result<(Name, Name), Code>
    ensures { ReadsOne (λ v. Called v.0 ∷ Called v.1 ∷ []) result (counted (A_name ∷ A_name ∷ []) (map (λ w. w.now) words.now)) }
{
    let [a, b] = words else {
        return Err(Code::Count);
    };
    Ok((parse_name(a)?, parse_name(b)?))
}

/// Three layers.
pub fn three_names(words: &[&[u8]]) -> Result<(Name, Name, Name), Code>
    ensures { ReadsOne (λ v. Called v.0 ∷ Called v.1 ∷ Called v.2 ∷ []) result (counted (A_name ∷ A_name ∷ A_name ∷ []) (map (λ w. w.now) words.now)) }
{
    let [a, b, c] = words else {
        return Err(Code::Count);
    };
    Ok((parse_name(a)?, parse_name(b)?, parse_name(c)?))
}

/// A layer and a colour of the format.
pub fn name_colour(format: u8, words: &[&[u8]]) -> Result<(Name, Colour), Code>
    ensures { ReadsOne (λ v. Called v.0 ∷ Number v.1.0 ∷ []) result (counted (A_name ∷ colour format ∷ []) (map (λ w. w.now) words.now)) }
{
    let [a, c] = words else {
        return Err(Code::Count);
    };
    Ok((parse_name(a)?, parse_colour(format, c)?))
}

/// A layer and a number from 1 to `high`.
pub fn name_few(words: &[&[u8]], high: u8) -> Result<(Name, u8), Code>
    ensures { ReadsOne (λ v. Called v.0 ∷ Number v.1 ∷ []) result (counted (A_name ∷ A_number 1 high ∷ []) (map (λ w. w.now) words.now)) }
{
    let [a, n] = words else {
        return Err(Code::Count);
    };
    Ok((parse_name(a)?, parse_few(high, n)?))
}

/// A layer and a number from `low` to `high`.
pub fn name_number(words: &[&[u8]], low: u32, high: u32) -> Result<(Name, u32), Code>
    ensures { ReadsOne (λ v. Called v.0 ∷ Number v.1 ∷ []) result (counted (A_name ∷ A_number low high ∷ []) (map (λ w. w.now) words.now)) }
{
    let [a, n] = words else {
        return Err(Code::Count);
    };
    Ok((parse_name(a)?, parse_number(low, high, n)?))
}

/// A layer and a pixel.
pub fn name_pixel(words: &[&[u8]]) -> Result<(Name, Pixel), Code>
    ensures { ReadsOne (λ v. Called v.0 ∷ Number v.1.x ∷ Number v.1.y ∷ []) result
        (counted (A_name ∷ coordinate ∷ coordinate ∷ []) (map (λ w. w.now) words.now)) }
{
    let [a, x, y] = words else {
        return Err(Code::Count);
    };
    let a = parse_name(a)?;
    let (x, y) = (parse_coordinate(x)?, parse_coordinate(y)?);
    Ok((a, Pixel { x, y }))
}

/// A layer, a pixel and a colour of the format.
pub fn name_pixel_colour(format: u8, words: &[&[u8]]) -> Result<(Name, Pixel, Colour), Code>
    ensures { ReadsOne (λ v. Called v.0 ∷ Number v.1.x ∷ Number v.1.y ∷ Number v.2.0 ∷ []) result
        (counted (A_name ∷ coordinate ∷ coordinate ∷ colour format ∷ []) (map (λ w. w.now) words.now)) }
{
    let [a, x, y, c] = words else {
        return Err(Code::Count);
    };
    let a = parse_name(a)?;
    let (x, y) = (parse_coordinate(x)?, parse_coordinate(y)?);
    Ok((a, Pixel { x, y }, parse_colour(format, c)?))
}

/// A layer, a pixel and a number from `low` to `high`.
pub fn name_pixel_number(words: &[&[u8]], low: u32, high: u32) -> Result<(Name, Pixel, u32), Code>
    ensures { ReadsOne (λ v. Called v.0 ∷ Number v.1.x ∷ Number v.1.y ∷ Number v.2 ∷ []) result
        (counted (A_name ∷ coordinate ∷ coordinate ∷ A_number low high ∷ []) (map (λ w. w.now) words.now)) }
{
    let [a, x, y, n] = words else {
        return Err(Code::Count);
    };
    let a = parse_name(a)?;
    let (x, y) = (parse_coordinate(x)?, parse_coordinate(y)?);
    Ok((a, Pixel { x, y }, parse_number(low, high, n)?))
}

/// A layer and a window.
pub fn name_window(words: &[&[u8]]) -> Result<(Name, Window), Code>
    ensures { ReadsOne (λ v. Called v.0 ∷ Number v.1.x ∷ Number v.1.y ∷ Number v.1.w ∷ Number v.1.h ∷ []) result
        (counted (A_name ∷ coordinate ∷ coordinate ∷ extent ∷ extent ∷ []) (map (λ w. w.now) words.now)) }
{
    let [a, x, y, w, h] = words else {
        return Err(Code::Count);
    };
    let a = parse_name(a)?;
    let (x, y) = (parse_coordinate(x)?, parse_coordinate(y)?);
    let (w, h) = (parse_extent(w)?, parse_extent(h)?);
    Ok((a, Window { x, y, w, h }))
}

/// A layer, a window and a colour of the format.
pub fn name_window_colour(format: u8, words: &[&[u8]]) -> Result<(Name, Window, Colour), Code>
    ensures { ReadsOne (λ v. Called v.0 ∷ Number v.1.x ∷ Number v.1.y ∷ Number v.1.w ∷ Number v.1.h ∷ Number v.2.0 ∷ []) result
        (counted (A_name ∷ coordinate ∷ coordinate ∷ extent ∷ extent ∷ colour format ∷ []) (map (λ w. w.now) words.now)) }
{
    let [a, x, y, w, h, c] = words else {
        return Err(Code::Count);
    };
    let a = parse_name(a)?;
    let (x, y) = (parse_coordinate(x)?, parse_coordinate(y)?);
    let (w, h) = (parse_extent(w)?, parse_extent(h)?);
    Ok((a, Window { x, y, w, h }, parse_colour(format, c)?))
}

/// A layer, a window and a layer.
pub fn name_window_name(words: &[&[u8]]) -> Result<(Name, Window, Name), Code>
    ensures { ReadsOne (λ v. Called v.0 ∷ Number v.1.x ∷ Number v.1.y ∷ Number v.1.w ∷ Number v.1.h ∷ Called v.2 ∷ []) result
        (counted (A_name ∷ coordinate ∷ coordinate ∷ extent ∷ extent ∷ A_name ∷ []) (map (λ w. w.now) words.now)) }
{
    let [a, x, y, w, h, c] = words else {
        return Err(Code::Count);
    };
    let a = parse_name(a)?;
    let (x, y) = (parse_coordinate(x)?, parse_coordinate(y)?);
    let (w, h) = (parse_extent(w)?, parse_extent(h)?);
    Ok((a, Window { x, y, w, h }, parse_name(c)?))
}

/// A layer, how far to the right and down, and a layer.
pub fn name_shift_name(words: &[&[u8]]) -> Result<(Name, i32, i32, Name), Code>
    ensures { ReadsOne (λ v. Called v.0 ∷ Signed v.1 ∷ Signed v.2 ∷ Called v.3 ∷ []) result
        (counted (A_name ∷ A_signed ∷ A_signed ∷ A_name ∷ []) (map (λ w. w.now) words.now)) }
{
    let [a, x, y, c] = words else {
        return Err(Code::Count);
    };
    let a = parse_name(a)?;
    Ok((a, parse_signed(x)?, parse_signed(y)?, parse_name(c)?))
}

/// A layer, a radius and a layer.
pub fn name_radius_name(words: &[&[u8]]) -> Result<(Name, u16, Name), Code>
    ensures { ReadsOne (λ v. Called v.0 ∷ Number v.1 ∷ Called v.2 ∷ []) result (counted (A_name ∷ coordinate ∷ A_name ∷ []) (map (λ w. w.now) words.now)) }
{
    let [a, r, c] = words else {
        return Err(Code::Count);
    };
    Ok((parse_name(a)?, parse_coordinate(r)?, parse_name(c)?))
}

/// A layer and a colour of the format, before a number of rings.
pub fn name_colour_rings(format: u8, words: &[&[u8]]) -> Result<(Name, Colour, u32), Code>
    ensures { ReadsOne (λ v. Called v.0 ∷ Number v.1.0 ∷ Number v.2 ∷ []) result
        (counted (A_name ∷ colour format ∷ A_number 1 1000 ∷ []) (map (λ w. w.now) words.now)) }
{
    let [a, c, k] = words else {
        return Err(Code::Count);
    };
    let a = parse_name(a)?;
    Ok((a, parse_colour(format, c)?, parse_number(1, 1000, k)?))
}

/// A layer, an id and the ends of a segment.
pub fn name_id_segment(words: &[&[u8]]) -> Result<(Name, u32, Seg), Code>
    ensures { ReadsOne (λ v. Called v.0 ∷ Number v.1 ∷ Number v.2.x1 ∷ Number v.2.y1 ∷ Number v.2.x2 ∷ Number v.2.y2 ∷ []) result
        (counted (A_name ∷ label ∷ coordinate ∷ coordinate ∷ coordinate ∷ coordinate ∷ []) (map (λ w. w.now) words.now)) }
{
    let [a, id, x1, y1, x2, y2] = words else {
        return Err(Code::Count);
    };
    let (a, id) = (parse_name(a)?, parse_number(0, u32::MAX, id)?);
    let (x1, y1) = (parse_coordinate(x1)?, parse_coordinate(y1)?);
    let (x2, y2) = (parse_coordinate(x2)?, parse_coordinate(y2)?);
    Ok((a, id, Seg { x1, y1, x2, y2 }))
}
