//! Worked commands of every kind, each with the reply that it must get.

/// Scripts, each with its name in the first line and as `plays` reads it from the second on.
pub static SCRIPTS: [&str; 30] = [
    "blocks are cut and merged\n16 3\nrun 256\n\
        region a 0 | ok\n\
        set a 5 2 7 | ok\n\
        blocks a | 4 3; 2 3; 1 4; ok\n\
        set a 5 2 0 | ok\n\
        blocks a | 8 1; ok",
    "a raster gives a layer its blocks\n16 1\nrun 256\n\
        region a 0 | ok\n\
        raster a; 0001; 0100 | ok\n\
        leaves a | 0 0 1 0; 1 0 1 1; 0 1 1 1; 1 1 1 0; ok",
    "an edition is opened again\n16 3\nrun 256\n\
        region a 1 | ok\n\
        publish | edition 1; ok\n\
        set a 0 0 5 | ok\n\
        copy a b | ok\n\
        revert | ok\n\
        at a 0 0 | 1; ok\n\
        layers | a region; ok\n\
        run 8\n\
        edition | edition 1; ok\n\
        layers | a region; ok\n\
        set a 0 0 0 | ok\n\
        set a 0 0 0 | ok\n\
        publish | edition 2; ok\n\
        records | 11 of 512; ok",
    "refusals come in their order\n16 3\nrun 256\n\
        set nosuch 99 x 1 | no 3 number\n\
        set nosuch 99 0 1 | no 5 unknown\n\
        points p | ok\n\
        area p 1 | no 6 kind\n\
        frob | no 1 word\n\
        at | no 2 count\n\
        region 9a 0 | no 4 name\n\
        region a 256 | no 3 number\n\
        region a 258 | no 3 number\n\
        # a remark |\n\
        \x20|\n\
        at\tp 1 1 | no 17 bytes\n\
        scatter p 0 | no 3 number",
    "a raster wants all its rows\n16 1\nrun 256\n\
        region a 0 | ok\n\
        raster a; 0001 | no 14 rows",
    "regions are moved and measured\n16 3\nrun 256\n\
        region a 4 | ok\n\
        shift a -1 0 b | ok\n\
        show b 6 0 2 1 | 0400; ok\n\
        shift a 8 0 d | ok\n\
        area d 0 | 64; ok\n\
        region e 0 | ok\n\
        set e 0 0 9 | ok\n\
        buffer e 1 f | ok\n\
        area f 1 | 4; ok\n\
        buffer e 8 g | ok\n\
        area g 1 | 64; ok\n\
        perimeter e 9 | 4; ok\n\
        perimeter a 4 | 32; ok\n\
        perimeter a 5 | 0; ok",
    "a window keeps what is inside\n16 2\nrun 256\n\
        region a 5 | ok\n\
        window a 1 1 2 2 b | ok\n\
        show b 0 0 4 4 | 00000000; 00050500; 00050500; 00000000; ok",
    "regions are laid over each other\n16 1\nrun 256\n\
        region a 0 | ok\n\
        raster a; 0102; 0000 | ok\n\
        region b 0 | ok\n\
        raster b; 0300; 0304 | ok\n\
        union a b u | ok\n\
        inter a b i | ok\n\
        diff a b d | ok\n\
        recolour a r 1 9 9 1 1 5 | ok\n\
        show u 0 0 2 2 | 0102; 0304; ok\n\
        show i 0 0 2 2 | 0100; 0000; ok\n\
        show d 0 0 2 2 | 0002; 0000; ok\n\
        show r 0 0 2 2 | 0902; 0000; ok\n\
        union a b a | no 7 exists",
    "rings make regions\n16 3\nrun 256\n\
        polygon a 5 1; 0 0 8 0 0 8 | ok\n\
        area a 5 | 28; ok\n\
        at a 3 4 | 0; ok\n\
        polygon b 1 2; 0 0 8 0 8 8 0 8; 2 2 6 2 6 6 2 6 | ok\n\
        area b 1 | 48; ok\n\
        perimeter b 1 | 48; ok\n\
        blocks b | 2 16; ok\n\
        polygon d 1 1; 0 0 9 0 0 8 | no 8 outside\n\
        polygon d 1 1; 0 0 1 1 | no 14 rows",
    "points come and go\n16 3\nrun 256\n\
        points p | ok\n\
        scatter p 2; 0 0 5; 1 0 6 | ok\n\
        blocks p | 4 3; 2 3; 1 4; ok\n\
        del p 1 0 | ok\n\
        blocks p | 8 1; ok\n\
        find p 0 0 | 5; ok\n\
        find p 1 0 | no 9 absent",
    "points that come at once are all there or none\n16 3\nrun 256\n\
        points p | ok\n\
        scatter p 2; 3 3 1; 3 3 2 | no 10 present\n\
        find p 3 3 | no 9 absent\n\
        scatter p 2; 3 3 1; 3 8 1 | no 8 outside\n\
        scatter p 2; 3 3 1; 3 x 1 | no 14 rows",
    "blocks hold two points in format 2\n16 3\nrun 256\n\
        points q 2 | no 15 format\n\
        points q 1 | ok\n\
        upgrade | edition 1; ok\n\
        points p 2 | ok\n\
        put p 0 0 1 | ok\n\
        put p 1 0 2 | ok\n\
        blocks p | 8 1; ok\n\
        put p 7 7 3 | ok\n\
        blocks p | 4 4; ok\n\
        records | 8 of 512; ok\n\
        del p 7 7 | ok\n\
        blocks p | 8 1; ok\n\
        layers | p points 2; q points; ok\n\
        points r 17 | no 3 number",
    "colours have 16 bits in format 2\n16 1\nrun 256\n\
        region a 0 | ok\n\
        set a 1 0 256 | no 3 number\n\
        upgrade | edition 1; ok\n\
        set a 1 0 256 | ok\n\
        show a 0 0 2 1 | 00000100; ok\n\
        upgrade | no 15 format\n\
        run 8\n\
        at a 1 0 | 0; ok\n\
        raster a; 00000001; 01000000 | ok\n\
        at a 0 1 | 256; ok",
    "a colour of 16 bits is published\n16 3\nrun 256\n\
        upgrade | edition 1; ok\n\
        region a 0 | ok\n\
        set a 5 2 258 | ok\n\
        publish | edition 2; ok\n\
        at a 5 2 | 258; ok\n\
        run 256\n\
        at a 5 2 | 258; ok",
    "line blocks are cut once and merged\n16 2\nrun 256\n\
        lines l 1 | ok\n\
        line l 1 0 0 3 3 | ok\n\
        line l 2 0 3 3 0 | ok\n\
        blocks l | 2 4; ok\n\
        records | 10 of 512; ok\n\
        unline l 2 | ok\n\
        blocks l | 4 1; ok\n\
        records | 3 of 512; ok\n\
        unline l 2 | no 9 absent\n\
        line l 1 0 0 0 0 | no 10 present\n\
        line l 3 0 0 4 0 | no 8 outside",
    "segments are clipped and near\n16 3\nrun 256\n\
        lines l 4 | ok\n\
        nearest l 1 1 | no 9 absent\n\
        line l 1 0 0 3 1 | ok\n\
        clip l 1 0 1 1 | 1 1/3 2/3; ok\n\
        clip l 5 5 1 1 | ok\n\
        cross l 1 0 1 1 | 1 0 0 3 1; ok\n\
        nearest l 2 0 | 1 2/5; ok\n\
        lines k 4 | ok\n\
        line k 5 0 0 3 0 | ok\n\
        line k 3 0 2 3 2 | ok\n\
        nearest k 1 1 | 3 1/1; ok",
    "segments are ranked\n16 3\nrun 256\n\
        lines l 4 | ok\n\
        line l 5 0 0 3 0 | ok\n\
        line l 3 0 2 3 2 | ok\n\
        line l 9 7 7 7 7 | ok\n\
        rank l 1 1 2 | 3 1/1; 5 1/1; ok\n\
        rank l 1 1 9 | 3 1/1; 5 1/1; 9 72/1; ok\n\
        rank l 1 1 0 | no 3 number\n\
        rank l 1 1 1 | 3 1/1; ok\n\
        nearest l 1 1 | 3 1/1; ok",
    "line layers cross\n16 3\nrun 256\n\
        lines l 4 | ok\n\
        lines m 4 | ok\n\
        line l 1 0 0 7 7 | ok\n\
        line l 2 0 7 3 7 | ok\n\
        line l 3 4 0 6 0 | ok\n\
        line m 5 0 7 7 0 | ok\n\
        line m 6 3 7 7 7 | ok\n\
        crossings l m | 1 5; 1 6; 2 5; 2 6; ok\n\
        crossings l l | 1 1; 2 2; 3 3; ok\n\
        region a 0 | ok\n\
        crossings l a | no 6 kind",
    "a map of a town\n2000 9\nrun 256\n\
        region river 0 | ok\n\
        rect river 0 200 512 60 1 | ok\n\
        area river 1 | 30720; ok\n\
        perimeter river 1 | 1144; ok\n\
        buffer river 10 flood | ok\n\
        area flood 1 | 40960; ok\n\
        points well | ok\n\
        put well 100 230 7 | ok\n\
        within well 0 190 512 80 | 100 230 7; ok\n\
        lines road 8 | ok\n\
        line road 1 0 100 511 100 | ok\n\
        line road 2 250 0 250 511 | ok\n\
        over road river | 2; ok\n\
        nearest road 100 230 | 1 16900/1; ok\n\
        layers | flood region; river region; road lines 8; well points; ok\n\
        publish | edition 1; ok",
    "layers are found by name\n16 3\nrun 256\n\
        region a 0 | ok\n\
        lines b 4 | ok\n\
        set b 0 0 1 | no 6 kind\n\
        set c 0 0 1 | no 5 unknown\n\
        copy a c | ok\n\
        drop a | ok\n\
        region d 1 | ok\n\
        layers | b lines 4; c region; d region; ok\n\
        at c 0 0 | 0; ok\n\
        at d 0 0 | 1; ok\n\
        at a 0 0 | no 5 unknown",
    "a text is answered\n16 3\nrun 256\n\
        region a 4 | ok\n\
        set a 1 0 255 | ok\n\
        at a 1 0 | 255; ok\n\
        show a 0 0 3 1 | 04ff04; ok\n\
        set a 8 0 1 | no 8 outside",
    "map algebra\n16 3\nrun 256\n\
        region a 0 | ok\n\
        rect a 0 0 4 2 3 | ok\n\
        region b 0 | ok\n\
        rect b 2 0 4 4 5 | ok\n\
        union a b u | ok\n\
        inter a b i | ok\n\
        diff b a d | ok\n\
        recolour a r 3 9 9 3 0 1 | ok\n\
        window b 3 1 2 2 w | ok\n\
        shift a 2 -1 s | ok\n\
        buffer w 1 f | ok\n\
        area u 3 | 8; ok\n\
        perimeter b 5 | 16; ok\n\
        show u 0 0 8 3 | 0303030305050000; 0303030305050000; 0000050505050000; ok\n\
        show i 0 0 8 3 | 0000030300000000; 0000030300000000; 0000000000000000; ok\n\
        show d 0 0 8 3 | 0000000005050000; 0000000005050000; 0000050505050000; ok\n\
        show r 0 0 8 3 | 0909090901010101; 0909090901010101; 0101010101010101; ok\n\
        show w 0 0 8 3 | 0000000000000000; 0000000505000000; 0000000505000000; ok\n\
        show s 0 0 8 3 | 0000030303030000; 0000000000000000; 0000000000000000; ok\n\
        show f 0 0 8 3 | 0000010101010000; 0000010101010000; 0000010101010000; ok\n\
        window a 7 7 2 1 g | no 8 outside\n\
        union a nosuch u | no 5 unknown\n\
        diff a b u | no 7 exists",
    "point layers\n16 3\nrun 256\n\
        points p | ok\n\
        put p 3 4 7 | ok\n\
        put p 3 4 9 | no 10 present\n\
        put p 8 0 1 | no 8 outside\n\
        put p 2 4 70000 | ok\n\
        find p 3 4 | 7; ok\n\
        find p 0 0 | no 9 absent\n\
        within p 0 4 8 1 | 2 4 70000; 3 4 7; ok\n\
        del p 3 4 | ok\n\
        del p 3 4 | no 9 absent\n\
        find p 3 4 | no 9 absent\n\
        points q 2 | no 15 format\n\
        points p 1 | no 7 exists\n\
        put nosuch 0 0 1 | no 5 unknown\n\
        region a 0 | ok\n\
        put a 0 0 1 | no 6 kind\n\
        set p 0 0 1 | no 6 kind\n\
        upgrade | edition 1; ok\n\
        points q 2 | ok\n\
        put q 0 0 1 | ok\n\
        layers | a region; p points; q points 2; ok\n\
        records | 6 of 512; ok",
    "points are scattered\n16 3\nrun 256\n\
        points p | ok\n\
        scatter p 2; 7 7 6; 0 0 5 | ok\n\
        scatter p 2; 1 1 1; 1 1 2 | no 10 present\n\
        scatter p 2; 2 2 1; 0 0 3 | no 10 present\n\
        scatter p 1; 8 0 1 | no 8 outside\n\
        scatter p 1; x | no 14 rows\n\
        within p 0 0 8 8 | 0 0 5; 7 7 6; ok",
    "editions are published\n16 3\nrun 256\n\
        region a 4 | ok\n\
        publish | edition 1; ok\n\
        set a 0 0 7 | ok\n\
        revert | ok\n\
        at a 0 0 | 4; ok\n\
        copy a b | ok\n\
        rect b 0 0 4 4 1 | ok\n\
        leaves b | 0 0 4 1; 4 0 4 4; 0 4 4 4; 4 4 4 4; ok\n\
        layers | a region; b region; ok\n\
        records | 7 of 512; ok\n\
        upgrade | edition 2; ok\n\
        set a 7 7 300 | ok\n\
        region c 1 | ok\n\
        drop a | ok\n\
        run 4096\n\
        edition | edition 2; ok\n\
        at b 0 0 | 1; ok\n\
        at b 7 7 | 4; ok\n\
        layers | a region; b region; ok\n\
        upgrade | no 15 format\n\
        publish | edition 3; ok",
    "an empty map has no records\n16 3\nrun 256\n\
        edition | edition 0; ok\n\
        records | 0 of 512; ok\n\
        # none |\n\
        \x20|\n\
        \x20  |",
    "a region of background has no buffer\n16 3\nrun 256\n\
        region a 0 | ok\n\
        buffer a 3 b | ok\n\
        area b 1 | 0; ok",
    "ends of a text\n16 1\nrun 256\n\
        region a 0 | ok\n\
        raster a; edition; edition | no 14 rows\n\
        raster a; 0001 | no 14 rows",
    "further lines of a refused scatter are commands\n16 3\nrun 256\n\
        points p | ok\n\
        scatter p 0 | no 3 number\n\
        3 3 1 | no 1 word\n\
        scatter p 100001 | no 3 number\n\
        scatter p | no 2 count\n\
        find p 3 3 | no 9 absent",
    "empty line layers have no nearest segment\n16 3\nrun 256\n\
        lines l 4 | ok\n\
        nearest l 2 0 | no 9 absent\n\
        rank l 2 0 3 | no 9 absent\n\
        blocks l | 8 1; ok\n\
        unline l 1 | no 9 absent\n\
        over l l | no 6 kind",
];
