// Single bytes of the text. Each function answers what is behind the byte.
ghost use Rattle.reading.specs.Bytes.{Behind, FindsDigit};

// The digit in front, as a number.
pub fn digit(s: &[u8]) -> Option<(u64, &[u8])>
    ensures { FindsDigit s.now result }
{
    let (first, rest) = s.split_first()?;
    if first.is_ascii_digit() {
        Some((u64::from(*first) - 48, rest))
    } else {
        None
    }
}

// The byte b.
pub fn behind(s: &[u8], b: u8) -> Option<&[u8]>
    ensures { Behind b s.now result }
{
    let (byte, rest) = s.split_first()?;
    if *byte == b { Some(rest) } else { None }
}
