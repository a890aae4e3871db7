//! Texts that are no scenario, each with its first bad line and the number of the reason.
/// A text, the number of line feeds behind it, its first bad line, from 1, and the number of the
/// reason.
pub type Refused = (&'static [u8], usize, u32, u8);

/// At least one text for each reason, and texts with several reasons, of which the lowest counts.
/// Lines and reasons come from another implementation of the grammar.
pub const REFUSED: &[Refused] = &[
    // 1: missing header
    (b"", 0, 1, 1),
    (b"\n", 0, 1, 1),
    (b"scatter 3\nnodes 1\n", 0, 1, 1),
    (b"# x\nscatter 1\n", 0, 1, 1),
    (b"scatter 1 1\n", 0, 1, 1),
    (b"\x01scatter 1\n", 0, 1, 1),
    // 2: bad byte
    (b"scatter 1\nnodes 2\ngroup 0 1\ntick\x01 n1\n", 0, 4, 2),
    (b"scatter 1\nnodes 2\ngroup 0 1\n\r\r\n", 0, 4, 2),
    (b"scatter 1\nnodes 2\ngroup 0 1\ntick n\x7f\n", 0, 4, 2),
    // 3: unknown word
    (b"scatter 1\nnodes 2\ngroup 0 1\nticks n1\n", 0, 4, 3),
    (
        b"scatter 1\nnodes 2\ngroup 0 1\norder 1 joins 2 0.1\n",
        0,
        4,
        3,
    ),
    (
        b"scatter 1\nnodes 2\ngroup 0 1\nclient 1\nadd a x\n",
        0,
        5,
        3,
    ),
    (
        b"scatter 1\nnodes 2\ngroup 0 1\nclient 1\ncas a x y\n",
        0,
        5,
        3,
    ),
    (
        b"scatter 1\nnodes 2\ngroup 0 1\norder 1 splits 0.1 5\n",
        0,
        4,
        3,
    ),
    // 4: out of place
    (b"scatter 1\ngroup 0 1\n", 0, 2, 4),
    (b"scatter 1\nnodes 1\nnodes 1\n", 0, 3, 4),
    (b"scatter 1\nnodes 1\nscatter 1\n", 0, 3, 4),
    (b"scatter 1\nnodes 2\ngroup 0 1\nget a\n", 0, 4, 4),
    (b"scatter 1\nnodes 2\ngroup 0 1\nend\n", 0, 4, 4),
    (b"scatter 1\nnodes 2\ngroup 0 1\nclient 1\ngo 1\n", 0, 5, 4),
    (
        b"scatter 1\nnodes 2\ngroup 0 1\nsettle 1\nclient 1\n",
        0,
        5,
        4,
    ),
    (b"scatter 1\nnodes 1\nsettle 1\n", 0, 3, 4),
    (b"scatter 1\nnodes 2\ngroup 0 1\nnodes 2\n", 0, 4, 4),
    (b"scatter 1\nnodes 2\ngroup 0 1\npolicy\npolicy\n", 0, 5, 4),
    (b"scatter 1\nnodes 2\npolicy\ngroup 0 1\n", 0, 3, 4),
    // 5: wrong count
    (b"scatter 1\nnodes 2\ngroup 0 1\ntick n1 n1\n", 0, 4, 5),
    (b"scatter 1\nnodes 2\ngroup 0 1\npolicy on\n", 0, 4, 5),
    (b"scatter 1\nnodes 2\ngroup 0 1\ntick\n", 0, 4, 5),
    (b"scatter 1\nnodes\n", 0, 2, 5),
    (b"scatter 1\nnodes 9\ngroup 0\n", 0, 3, 5),
    (b"scatter 1\nnodes 2\ngroup 0 1\nclient 1\nput a\n", 0, 5, 5),
    (b"scatter 1\nnodes 2\ngroup 0 1\nclient 1\nend 1\n", 0, 5, 5),
    (b"scatter 1\nnodes 2\ngroup 0 1\norder 1\n", 0, 4, 5),
    (b"scatter 1\nnodes 2\ngroup 0 1\norder 1 join 2\n", 0, 4, 5),
    (
        b"scatter 1\nnodes 2\ngroup 0 1\norder 1 split 0.1\n",
        0,
        4,
        5,
    ),
    (
        b"scatter 1\nnodes 2\ngroup 0 1\norder 1 merge 0.1 2\n",
        0,
        4,
        5,
    ),
    (
        b"scatter 2\nnodes 1\ngroup 0 1\nclient 1\ncas a x\n",
        0,
        5,
        5,
    ),
    // 6: bad number
    (b"scatter 1\nnodes 33\n", 0, 2, 6),
    (b"scatter 1\nnodes 0\n", 0, 2, 6),
    (b"scatter 1\nnodes 01\n", 0, 2, 6),
    (b"scatter 1\nnodes 9\ngroup 4294967296 1\n", 0, 3, 6),
    (b"scatter 1\nnodes 9\ngroup 0 33\n", 0, 3, 6),
    (b"scatter 1\nnodes 2\ngroup 0 1\nclient 65\n", 0, 4, 6),
    (b"scatter 1\nnodes 2\ngroup 0 1\ntick x1\n", 0, 4, 6),
    (b"scatter 1\nnodes 2\ngroup 0 1\ntick n0\n", 0, 4, 6),
    (b"scatter 1\nnodes 2\ngroup 0 1\ndeliver n1 0\n", 0, 4, 6),
    (
        b"scatter 1\nnodes 2\ngroup 0 1\ndeliver n1 4294967296\n",
        0,
        4,
        6,
    ),
    (b"scatter 1\nnodes 2\ngroup 0 1\nagain +1\n", 0, 4, 6),
    (b"scatter 1\nnodes 2\ngroup 0 1\nsettle 1000001\n", 0, 4, 6),
    (b"scatter 1\nnodes 2\ngroup 0 1\nfree 1 17\n", 0, 4, 6),
    (b"scatter 1\nnodes 2\ngroup 0 1\nstorm 1 0\n", 0, 4, 6),
    (
        b"scatter 1\nnodes 2\ngroup 0 1\nstorm 18446744073709551616 1\n",
        0,
        4,
        6,
    ),
    (
        b"scatter 1\nnodes 2\ngroup 0 1\norder 33 join 1 0.1\n",
        0,
        4,
        6,
    ),
    (
        b"scatter 1\nnodes 2\ngroup 0 1\norder 1 join 1 0.0\n",
        0,
        4,
        6,
    ),
    (
        b"scatter 1\nnodes 2\ngroup 0 1\norder 1 join 1 33.1\n",
        0,
        4,
        6,
    ),
    (
        b"scatter 1\nnodes 2\ngroup 0 1\norder 1 leave 1 0.1.1\n",
        0,
        4,
        6,
    ),
    (
        b"scatter 1\nnodes 2\ngroup 0 1\norder 1 leave 1 1\n",
        0,
        4,
        6,
    ),
    (
        b"scatter 1\nnodes 2\ngroup 0 1\norder 1 repart 0.1 4294967296\n",
        0,
        4,
        6,
    ),
    (
        b"scatter 1\nnodes 2\ngroup 0 1\norder 1 migrate 3 0.1\n",
        0,
        4,
        6,
    ),
    // 7: bad key
    (
        b"scatter 1\nnodes 2\ngroup 0 1\nclient 1\nget kkkkkkkkkkkkkkkkkkkkkkkkkkkkkkkkkkk\
            kkkkkkkkkkkkkkkkkkkkkkkkkkkkkk\n",
        0,
        5,
        7,
    ),
    (
        b"scatter 1\nnodes 2\ngroup 0 1\nclient 1\nput kkkkkkkkkkkkkkkkkkkkkkkkkkkkkkkkkkk\
            kkkkkkkkkkkkkkkkkkkkkkkkkkkkkk vvvvvvvvvvvvvvvvvvvvvvvvvvvvvvvvvvvvvvvvvvvvvvvvv\
            vvvvvvvvvvvvvvvvvvvvvvvvvvvvvvvvvvvvvvvvvvvvvvvvvvvvvvvvvvvvvvvvvvvvvvvvvvvvvvvv\
            vvvvvvvvvvvvvvvvvvvvvvvvvvvvvvvvvvvvvvvvvvvvvvvvvvvvvvvvvvvvvvvvvvvvvvvvvvvvvvvv\
            vvvvvvvvvvvvvvvvvvvvvvvvvvvvvvvvvvvvvvvvvvvvvvvv\n",
        0,
        5,
        7,
    ),
    // 8: bad value
    (
        b"scatter 1\nnodes 2\ngroup 0 1\nclient 1\nput a vvvvvvvvvvvvvvvvvvvvvvvvvvvvvvvvv\
            vvvvvvvvvvvvvvvvvvvvvvvvvvvvvvvvvvvvvvvvvvvvvvvvvvvvvvvvvvvvvvvvvvvvvvvvvvvvvvvv\
            vvvvvvvvvvvvvvvvvvvvvvvvvvvvvvvvvvvvvvvvvvvvvvvvvvvvvvvvvvvvvvvvvvvvvvvvvvvvvvvv\
            vvvvvvvvvvvvvvvvvvvvvvvvvvvvvvvvvvvvvvvvvvvvvvvvvvvvvvvvvvvvvvvv\n",
        0,
        5,
        8,
    ),
    (
        b"scatter 2\nnodes 1\ngroup 0 1\nclient 1\ncas a vvvvvvvvvvvvvvvvvvvvvvvvvvvvvvvvv\
            vvvvvvvvvvvvvvvvvvvvvvvvvvvvvvvvvvvvvvvvvvvvvvvvvvvvvvvvvvvvvvvvvvvvvvvvvvvvvvvv\
            vvvvvvvvvvvvvvvvvvvvvvvvvvvvvvvvvvvvvvvvvvvvvvvvvvvvvvvvvvvvvvvvvvvvvvvvvvvvvvvv\
            vvvvvvvvvvvvvvvvvvvvvvvvvvvvvvvvvvvvvvvvvvvvvvvvvvvvvvvvvvvvvvvv x\n",
        0,
        5,
        8,
    ),
    // 9: unknown name
    (b"scatter 1\nnodes 9\ngroup 0 1 10\n", 0, 3, 9),
    (b"scatter 1\nnodes 1\ngroup 0 2\n", 0, 3, 9),
    (b"scatter 1\nnodes 2\ngroup 0 1\ngo 1\n", 0, 4, 9),
    (b"scatter 1\nnodes 2\ngroup 0 1\ntick n3\n", 0, 4, 9),
    (b"scatter 1\nnodes 2\ngroup 0 1\ndrop c1 1\n", 0, 4, 9),
    (b"scatter 1\nnodes 2\ngroup 0 1\ncrash 3\n", 0, 4, 9),
    (
        b"scatter 1\nnodes 2\ngroup 0 1\norder 3 join 1 0.1\n",
        0,
        4,
        9,
    ),
    (
        b"scatter 1\nnodes 2\ngroup 0 1\norder 1 join 3 0.1\n",
        0,
        4,
        9,
    ),
    (
        b"scatter 1\nnodes 2\ngroup 0 1\norder 1 migrate 0.1 3\n",
        0,
        4,
        9,
    ),
    // 10: repeated
    (
        b"scatter 1\nnodes 2\ngroup 0 1\nclient 1\nend\nclient 1\n",
        0,
        6,
        10,
    ),
    (b"scatter 1\nnodes 9\ngroup 0 1 2 1\n", 0, 3, 10),
    (
        b"scatter 1\nnodes 12\ngroup 0 1 2 3 4 5 6 7 8 9 10 1\n",
        0,
        3,
        10,
    ),
    (b"scatter 1\nnodes 9\ngroup 5 1\ngroup 4 2 2\n", 0, 4, 10),
    // 11: bad boundary
    (b"scatter 1\nnodes 9\ngroup 5 1\ngroup 5 2\n", 0, 4, 11),
    (
        b"scatter 1\nnodes 9\ngroup 5 1\ngroup 7 1\ngroup 6 2\n",
        0,
        5,
        11,
    ),
    // 12: too many
    (
        b"scatter 1\nnodes 1\ngroup 1 1\ngroup 2 1\ngroup 3 1\ngroup 4 1\ngroup 5 1\ngroup 6 1\n\
        group 7 1\ngroup 8 1\ngroup 9 1\ngroup 10 1\ngroup 11 1\ngroup 12 1\ngroup 13 1\n\
        group 14 1\ngroup 15 1\ngroup 16 1\ngroup 17 1\n",
        0,
        19,
        12,
    ),
    (
        b"scatter 1\nnodes 12\ngroup 0 1 2 3 4 5 6 7 8 9 10\n",
        0,
        3,
        12,
    ),
    // 13: unended client
    (b"scatter 1\nnodes 2\ngroup 0 1\nclient 1\n", 0, 5, 13),
    (
        b"scatter 1\nnodes 2\ngroup 0 1\nclient 1\nend\nclient 2\nget a",
        0,
        8,
        13,
    ),
    // 14: missing part
    (b"scatter 1", 0, 2, 14),
    (b"scatter 1\nnodes 1\n\n", 0, 4, 14),
    // 15: too large
    (b"scatter 1\nnodes 1\ngroup 0 1\n", 19_998, 20_001, 15),
];
