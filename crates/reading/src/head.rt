// The L line: purpose, rank, operand count and chosen operand. `-` chooses none, with P only.
ghost use Rattle.std.specs.Prelude.{ℕ};
ghost use Rattle.reading.specs.Bytes.{BehindAll};
ghost use Rattle.reading.specs.Heads.{ReadsLast, ReadsChosen, ReadsCounts, ReadsChosenBy, ReadsTold, ReadsHead};

use super::Said;
use super::byte::behind;
use super::number::field;
use strided::Purpose;

// What is behind the bytes of a word.
fn behind_all<'a>(s: &'a [u8], word: &[u8]) -> Option<&'a [u8]>
    ensures { BehindAll word.now s.now result }
{
    s.strip_prefix(word)
}

// The field of the chosen operand, and the line's end.
fn read_last(s: &[u8]) -> Option<(u64, &[u8])>
    ensures { ReadsLast s.now result }
{
    let (k, end) = field(s)?;
    Some((k, behind(end, b'\n')?))
}

// The end of a line with P.
fn read_pointwise(s: &[u8]) -> Option<(Purpose, &[u8])>
    ensures { ReadsChosen 80 s.now result }
{
    if let Some(rest) = behind_all(s, b",-\n") {
        return Some((Purpose::Pointwise, rest));
    }
    let (k, rest) = read_last(s)?;
    Some((Purpose::PointwiseInto(k), rest))
}

// The end of a line with F.
fn read_fold(s: &[u8]) -> Option<(Purpose, &[u8])>
    ensures { ReadsChosen 70 s.now result }
{
    let (k, rest) = read_last(s)?;
    Some((Purpose::Fold(k), rest))
}

// Two counts of a line, such as rank and operand count.
pub fn read_counts(s: &[u8]) -> Option<(usize, usize, &[u8])>
    ensures { ReadsCounts s.now result }
{
    let (first, rest) = field::<u64>(s)?;
    let (second, rest) = field::<u64>(rest)?;
    Some((first as usize, second as usize, rest))
}

// What is behind a letter whose lines end as `read_chosen` reads them.
fn read_told<F: Fn(&[u8]) -> Option<(Purpose, &[u8])>>(
    s: &[u8],
    read_chosen: F,
) -> Option<(Said, &[u8])>
    requires { F.IsAlwaysCallable read_chosen }
    ensures { (letter : ℕ) → ReadsChosenBy letter (F.post read_chosen) → ReadsTold letter s.now result }
{
    let (rank, operands, rest) = read_counts(s)?;
    let (purpose, rest) = read_chosen(rest)?;
    Some((
        Said {
            purpose,
            rank,
            operands,
        },
        rest,
    ))
}

// The line that a text begins with.
pub fn read_head(s: &[u8]) -> Option<(Said, &[u8])>
    ensures { ReadsHead s.now result }
{
    if let Some(rest) = behind_all(s, b"L,P") {
        return read_told(rest, read_pointwise);
    }
    read_told(behind_all(s, b"L,F")?, read_fold)
}
