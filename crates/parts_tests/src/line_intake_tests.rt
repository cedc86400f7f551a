use arrayvec::ArrayVec;
use line_intake::gather;

// Pieces of one line after the other; where the newline stands in each; and what four octets of room have then.
const PIECES: [(&[u8], Option<usize>, &[u8]); 7] = [
    (b"", None, b""),
    (b"\nabc", Some(0), b""),
    (b"a", None, b"a"),
    (b"b\n", Some(1), b"ab"),
    (b"\r\n\n", Some(1), b"ab\r"),
    (b"cde", None, b"ab\rc"),
    (
        b"fffffffffffffffffffffffffffffffffffffffffffffffffffffffffffffffff\nf",
        Some(65),
        b"ab\rc",
    ),
];

#[test]
fn a_line_is_gathered_from_pieces(rt: HostRuntime) {
    let mut line = ArrayVec::<u8, 4>::new();
    for (piece, newline, octets) in PIECES {
        assert!(rt; gather(piece, &mut line) == newline);
        assert!(rt; line.as_slice() == octets);
    }
}
