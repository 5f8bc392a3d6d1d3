//! Cutting bytes at a sign.
ghost use Rattle.std.specs.Prelude.{◌≡◌, ◌∷◌, ◌++◌, MatchOption};
ghost use Rattle.fb_index.specs.Pieces.{IsFree};

/// The bytes up to the first such sign and those behind it, none where there is no such sign.
pub(crate) fn cut(bytes: &[u8], sign: u8) -> Option<(&[u8], &[u8])>
    ensures { MatchOption result (IsFree sign bytes.now)
        (λ parts. IsFree sign parts.0.now × (bytes.now ≡ parts.0.now ++ sign ∷ parts.1.now)) }
{
    let mut len = 0;
    let mut left = bytes;
    while let [byte, rest @ ..] = left {
        if *byte == sign {
            return Some((&bytes[..len], rest));
        }
        len += 1;
        left = rest;
    }
    None
}
