//! Every command, for a map that is larger than the smallest pool.

/// What makes the map, and publishes it: a layer of points and two of lines, five region layers of 256 blocks, and one of fewer. Those five have
/// more records than eight pages hold, of which each has at most 144.
pub const MAP: &[u8] = b"points p\n\
    scatter p 40\n3 1 1\n10 6 2\n1 11 3\n8 0 4\n15 5 5\n6 10 6\n13 15 7\n4 4 8\n11 9 9\n2 14 10\n9 3 11\n0 8 12\n\
        7 13 13\n14 2 14\n5 7 15\n12 12 16\n3 4 17\n10 9 18\n1 14 19\n8 3 20\n15 8 21\n6 13 22\n13 2 23\n4 7 24\n\
        11 12 25\n2 1 26\n9 6 27\n0 11 28\n7 0 29\n14 5 30\n5 10 31\n12 15 32\n3 7 33\n10 12 34\n1 1 35\n8 6 36\n\
        15 11 37\n6 0 38\n13 5 39\n4 10 40\n\
    lines l 1\n\
    line l 1 0 0 15 15\n\
    line l 2 15 0 0 15\n\
    line l 3 2 7 13 7\n\
    line l 4 6 1 6 14\n\
    line l 5 9 2 12 3\n\
    line l 6 4 11 4 11\n\
    line l 7 0 12 15 9\n\
    line l 8 1 5 14 0\n\
    line l 9 13 15 10 4\n\
    line l 10 3 15 15 13\n\
    line l 11 0 9 8 2\n\
    line l 12 11 1 14 12\n\
    lines m 1\n\
    line m 1 0 4 15 4\n\
    line m 2 10 0 10 15\n\
    line m 3 1 14 3 12\n\
    line m 4 7 7 8 8\n\
    line m 5 2 0 13 15\n\
    line m 6 0 15 15 2\n\
    region a 0\n\
    raster a\n00010001000100010001000100010001\n01000100010001000100010001000100\n\
        00010001000100010001000100010001\n01000100010001000100010001000100\n\
        00010001000100010001000100010001\n01000100010001000100010001000100\n\
        00010001000100010001000100010001\n01000100010001000100010001000100\n\
        00010001000100010001000100010001\n01000100010001000100010001000100\n\
        00010001000100010001000100010001\n01000100010001000100010001000100\n\
        00010001000100010001000100010001\n01000100010001000100010001000100\n\
        00010001000100010001000100010001\n01000100010001000100010001000100\n\
    recolour a b 1 2 0 3\n\
    window a 0 0 7 16 d\n\
    copy a e\n\
    copy b f\n\
    copy b g\n\
    publish\n";

/// The commands on layers.
pub static LAYERS: [&str; 6] = [
    "region c 7; publish",
    "copy a c; publish",
    "drop b; publish",
    "layers; publish",
    "blocks a; publish",
    "records; publish",
];

/// The commands that paint, and those that look.
pub static PAINTING: [&str; 7] = [
    "set a 4 5 9; publish",
    "rect a 3 3 10 10 2; publish",
    "raster a; 0102030405060708090a0b0c0d0e0f10; 01000100010001000100010001000100; \
        00010001000100010001000100010001; 01000100010001000100010001000100; \
        0002000200020002000a000a000a000a; 02000200020002000a000a000a000a00; \
        0002000200020002000a000a000a000a; 02000200020002000a000a000a000a00; \
        00010001000100010001000100010001; 01000100010001000100010001000100; \
        00010001000100010001000100010001; 01000100010001000100010001000100; \
        00000000000000000000000000000000; 00000000000000000000000000000000; \
        00000000000000000000000000000000; 00000000000000000000000000000000; publish",
    "polygon c 5 2; 0 0 16 0 0 16; 1 1 9 2 3 8; publish",
    "at a 3 4; publish",
    "show a 0 0 16 16; publish",
    "leaves b; publish",
];

/// The commands on points.
pub static POINTS: [&str; 6] = [
    "points c; publish",
    "put p 6 5 7; publish",
    "scatter p 3; 0 0 8; 15 15 9; 7 6 10; publish",
    "del p 8 0; publish",
    "find p 5 7; publish",
    "within p 0 0 16 16; publish",
];

/// The commands on lines, and the questions on segments.
pub static LINES: [&str; 9] = [
    "lines c 3; publish",
    "line l 13 1 12 14 10; publish",
    "unline l 1; publish",
    "cross l 3 3 6 9; publish",
    "clip l 3 3 6 9; publish",
    "nearest l 3 9; publish",
    "rank l 3 9 4; publish",
    "over l a; publish",
    "crossings l m; publish",
];

/// Map algebra, and the measures of a region.
pub static ALGEBRA: [&str; 9] = [
    "union d b c; publish",
    "inter b a c; publish",
    "diff a d c; publish",
    "recolour b c 2 9 3 0; publish",
    "window b 2 2 9 9 c; publish",
    "shift b 3 -2 c; publish",
    "buffer d 1 c; publish",
    "area a 1; publish",
    "perimeter a 1; publish",
];

/// The commands on editions.
pub static EDITIONS: [&str; 4] = ["edition; publish", "publish", "upgrade", "revert; publish"];
