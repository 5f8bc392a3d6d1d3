//! Cutting bytes at a sign.
ghost use Rattle.std.specs.Prelude.{◌≡◌};
ghost use Rattle.std.specs.Option.{option_copied};
ghost use Rattle.fb_index.specs.Pieces.{up_to, behind};

/// The bytes up to the first such sign, and those behind it where it is there.
pub fn cut(bytes: &[u8], sign: u8) -> (&[u8], Option<&[u8]>)
    ensures piece { result.0.now ≡ up_to sign bytes.now }
    ensures behind { option_copied result.1 ≡ behind sign bytes.now }
{
    let mut len = 0;
    let mut left = bytes;
    while let [byte, rest @ ..] = left {
        if *byte == sign {
            return (&bytes[..len], Some(rest));
        }
        len += 1;
        left = rest;
    }
    (bytes, None)
}
