// Trials of the cutter alone: the tokens of a text with their places, also those behind a token that it refuses.
use reader::{Cause, Cutter, Fault, Kind, Layer, Token};
use std::process::Abort;

// The kind of a token, or why there is none, and the place.
type Piece = (Result<Kind, Cause>, usize);

fn answer((kind, place): Piece) -> Result<Option<Token>, Fault> {
    match kind {
        Ok(kind) => Ok(Some(Token { kind, place })),
        Err(cause) => Err(Fault {
            cause,
            place,
            layer: Layer::Cutter,
        }),
    }
}

// The text has these pieces and no more, however often it is asked.
fn cuts(rt: &impl Abort, text: &[u8], pieces: &[Piece]) {
    let mut cutter = Cutter::new(text);
    for piece in pieces {
        assert_eq!(rt; cutter.next(), answer(*piece), "text {text:?}");
    }
    assert_eq!(rt; cutter.next(), Ok(None), "text {text:?}");
    assert_eq!(rt; cutter.next(), Ok(None), "text {text:?}");
    assert_eq!(rt; cutter.len(), text.len(), "text {text:?}");
}

static TEXTS: &[(&[u8], &[Piece])] = &[
    (b"", &[]),
    (b"   ", &[]),
    (b"x", &[(Ok(Kind::Variable(2323)), 0)]),
    (b" z99 ", &[(Ok(Kind::Variable(2625)), 1)]),
    (
        b"(+)*",
        &[
            (Ok(Kind::Open), 0),
            (Ok(Kind::Plus), 1),
            (Ok(Kind::Close), 2),
            (Ok(Kind::Star), 3),
        ],
    ),
    (
        b"a10b0c",
        &[
            (Ok(Kind::Variable(11)), 0),
            (Ok(Kind::Variable(102)), 3),
            (Ok(Kind::Variable(202)), 5),
        ],
    ),
    (
        b" (x10 +x01*?)",
        &[
            (Ok(Kind::Open), 1),
            (Ok(Kind::Variable(2334)), 2),
            (Ok(Kind::Plus), 6),
            (Err(Cause::BadNumber), 7),
            (Ok(Kind::Star), 10),
            (Err(Cause::NoToken), 11),
            (Ok(Kind::Close), 12),
        ],
    ),
    (
        b"x1000 y",
        &[(Err(Cause::BadNumber), 0), (Ok(Kind::Variable(2424)), 6)],
    ),
    (
        b"12x",
        &[
            (Err(Cause::NoToken), 0),
            (Err(Cause::NoToken), 1),
            (Ok(Kind::Variable(2323)), 2),
        ],
    ),
    (
        b"x 1",
        &[(Ok(Kind::Variable(2323)), 0), (Err(Cause::NoToken), 2)],
    ),
    (
        b"\xff \t",
        &[(Err(Cause::NoToken), 0), (Err(Cause::NoToken), 2)],
    ),
];

#[test]
fn texts(rt: HostRuntime) {
    for (text, pieces) in TEXTS {
        cuts(&rt, text, pieces);
    }
    assert_eq!(rt; Cutter::new(b"").len(), 0);
    assert_eq!(rt; Cutter::new(b" (x10 +x01*?)").len(), 13);
}
