//! The lines of replies before their `ok`, as `Turns` reads them: each is followed by `; `.
use quilt_plain::Fraction;
use quilt_scripts::line_of;
use quilt_types::{Pixel, Seg};
use std::alloc::{AllocError, Global};

/// Adds a line of numbers.
fn add_line(alloc: Global, body: &mut String, numbers: &[u32]) -> Result<(), AllocError> {
    let line = line_of(alloc, "", numbers)?;
    body.push_str(line.trim_start())?;
    body.push_str("; ")
}

/// The numbers of a segment's ends.
pub fn ends_of(s: Seg) -> [u32; 4] {
    [s.x1, s.y1, s.x2, s.y2].map(u32::from)
}

/// Points with their labels.
pub fn body_of_points(alloc: Global, points: &[(Pixel, u32)]) -> Result<String, AllocError> {
    let mut body = String::new(alloc);
    for (p, label) in points {
        add_line(alloc, &mut body, &[u32::from(p.x), u32::from(p.y), *label])?;
    }
    Ok(body)
}

/// Segments behind their ids.
pub fn body_of_segments(alloc: Global, segs: &[(u32, Seg)]) -> Result<String, AllocError> {
    let mut body = String::new(alloc);
    for (id, s) in segs {
        let [x1, y1, x2, y2] = ends_of(*s);
        add_line(alloc, &mut body, &[*id, x1, y1, x2, y2])?;
    }
    Ok(body)
}

/// Numbers, one a line.
pub fn body_of_numbers(alloc: Global, numbers: &[u32]) -> Result<String, AllocError> {
    let mut body = String::new(alloc);
    for number in numbers {
        add_line(alloc, &mut body, &[*number])?;
    }
    Ok(body)
}

/// Pairs of ids.
pub fn body_of_pairs(alloc: Global, pairs: &[(u32, u32)]) -> Result<String, AllocError> {
    let mut body = String::new(alloc);
    for (id, other) in pairs {
        add_line(alloc, &mut body, &[*id, *other])?;
    }
    Ok(body)
}

/// Ids and squared distances.
pub fn body_of_distances(alloc: Global, ranked: &[(u32, Fraction)]) -> Result<String, AllocError> {
    let mut body = String::new(alloc);
    for (id, far) in ranked {
        let Fraction { over, under } = *far;
        body.push_str(&format!(in alloc; "{id} {over}/{under}; ")?)?;
    }
    Ok(body)
}

/// The rows of a square of this side whose colours are below 4.
pub fn body_of_rows(alloc: Global, side: u32, colours: &[u16]) -> Result<String, AllocError> {
    let mut body = String::new(alloc);
    let mut x = 0_u32;
    for c in colours {
        body.push_str(match c {
            0 => "00",
            1 => "01",
            2 => "02",
            _ => "03",
        })?;
        x = x.wrapping_add(1);
        if x == side {
            x = 0;
            body.push_str("; ")?;
        }
    }
    Ok(body)
}
