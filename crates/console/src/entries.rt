// The entries of an input, each answered in turn.
ghost use Rattle.std.specs.Prelude.{◌≡◌, ◌<◌, codes, length, IfSome, OnOk};
ghost use Rattle.std.specs.Io.KnownBytes.{Appends};

use crate::{input, out};
use std::io::{self, Read, Write};

pub trait Answers {
    // Answers the first entry of `rest`, the one of number i, and gives what stands after it; none where no entry stands.
    fn answer_first<'a, W: Write>(
        &mut self,
        to: &mut W,
        i: u64,
        rest: &'a [u8],
    ) -> io::Result<Option<&'a [u8]>>;
}

// Up to the end or to where none stands. An entry has a byte or more, so there are no more entries than bytes.
fn answer_all<W: Write, A: Answers>(to: &mut W, file: &[u8], answers: &mut A) -> io::Result<()> {
    let mut rest = file;
    for i in 1..=file.len() as u64 {
        if rest.is_empty() {
            break;
        }
        let Some(left) = answers.answer_first(to, i, rest)? else {
            return out::bad_file(to);
        };
        rest = left;
    }
    Ok(())
}

// Room for a whole input.
fn room() -> [u8; 65536]
    ensures { 65536 ≡ length result }
{
    [0; 65536]
}

// A longer input than 65,536 bytes is a bad file.
pub fn answer_input<R: Read, W: Write, A: Answers>(
    from: &mut R,
    to: &mut W,
    answers: &mut A,
) -> io::Result<()>
    ensures { OnOk result (IfSome (R.remaining from.old) (λ all. 65536 < length all
        → Appends (W.contents to.old) (W.contents to.new) (codes "bad file\n"))) }
{
    let mut file = room();
    match input::read_whole(from, &mut file)? {
        Some(n) => answer_all(to, &file[..n], answers),
        None => out::bad_file(to),
    }
}

#[cfg(test)]
mod tests {
    use super::*;
    use std::alloc::Global;
    use std::test::Fail;

    // Each byte is an entry, but `!`.
    #[derive(Drop)]
    struct Bytes;

    impl Answers for Bytes {
        fn answer_first<'a, W: Write>(
            &mut self,
            to: &mut W,
            i: u64,
            rest: &'a [u8],
        ) -> io::Result<Option<&'a [u8]>> {
            match rest.split_first() {
                Some((byte, left)) if *byte != b'!' => {
                    writeln!(to, "{i} {byte}")?;
                    Ok(Some(left))
                }
                _ => Ok(None),
            }
        }
    }

    fn answered(alloc: Global, mut file: &[u8]) -> io::Result<Vec<u8>> {
        let mut to = Vec::new(alloc);
        answer_input(&mut file, &mut to, &mut Bytes)?;
        Ok(to)
    }

    #[test]
    fn each_in_turn(rt: HostRuntime) -> Result<(), Fail> {
        let to = answered(rt.alloc(), b"abc")?;
        assert_eq!(rt; to.as_slice(), b"1 97\n2 98\n3 99\n".as_slice());
        Ok(())
    }

    #[test]
    fn none_of_a_longer_one(rt: HostRuntime) -> Result<(), Fail> {
        let mut to = Vec::new(rt.alloc());
        answer_input(&mut io::repeat(b'a').take(65537), &mut to, &mut Bytes)?;
        assert_eq!(rt; to.as_slice(), b"bad file\n".as_slice());
        Ok(())
    }

    #[test]
    fn up_to_where_none_stands(rt: HostRuntime) -> Result<(), Fail> {
        let to = answered(rt.alloc(), b"a!b")?;
        assert_eq!(rt; to.as_slice(), b"1 97\nbad file\n".as_slice());
        Ok(())
    }
}
