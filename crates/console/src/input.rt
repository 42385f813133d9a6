// What comes from a reader, as standard input.
ghost use Rattle.std.specs.Prelude.{◌≡◌, ℕ, ◌≤◌, ◌<◌, ◌↔◌, false, IsTrue, IfOk, IfSome, MatchOption, OnOk, OnErr, length, take};
ghost use Rattle.std.specs.Io.{ReadsAtMost};
ghost use Rattle.std.specs.Io.KnownBytes.{Consumes, IsAtEnd, Keeps, ReadConsumes};

use std::io::{self, ErrorKind, Read};

// One read, tried again where a signal interrupts it. The last try's answer stands.
fn read_some<R: Read>(input: &mut R, buf: &mut [u8]) -> io::Result<usize>
    ensures bound { ReadsAtMost result buf.new }
    ensures bytes { ReadConsumes (R.remaining input.old) (R.remaining input.new) result buf.new }
{
    for _ in 0..u64::MAX {
        match input.read(buf) {
            Err(e) if e.kind() == ErrorKind::Interrupted => {}
            done => return done,
        }
    }
    input.read(buf)
}

// Whether there is a byte more, which is then taken. An error takes none.
pub fn has_more<R: Read>(input: &mut R) -> io::Result<bool>
    ensures more { IfOk result (λ more. IfSome (R.remaining input.old)
        (λ xs. IsTrue more ↔ (0 < length xs))) }
    ensures end { IfOk result (λ more. more ≡ false → IsAtEnd (R.remaining input.new)) }
    ensures err { OnErr result (Keeps (R.remaining input.old) (R.remaining input.new)) }
{
    let mut byte = [0u8; 1];
    Ok(read_some(input, &mut byte)? != 0)
}

// Reads until `buf` is full or the input ends, and gives how many bytes now start `buf`.
// After an error the bytes that came before it, and were taken, start `buf`; how many they are is not handed back.
pub fn read_full<R: Read>(input: &mut R, buf: &mut [u8]) -> io::Result<usize>
    ensures bound { ReadsAtMost result buf.new }
    ensures bytes { IfOk result
        (λ n. Consumes (R.remaining input.old) (R.remaining input.new) (take n buf.new)) }
    ensures end { IfOk result (λ n. n < length buf.new → IsAtEnd (R.remaining input.new)) }
    ensures err { OnErr result ((k : ℕ) × (k ≤ length buf.new)
        × Consumes (R.remaining input.old) (R.remaining input.new) (take k buf.new)) }
{
    let mut done = 0;
    while done < buf.len() {
        let more = read_some(input, &mut buf[done..])?;
        if more == 0 {
            break;
        }
        done += more;
    }
    Ok(done)
}

// Reads all of the input, where `buf` has room for it, and gives how many bytes now start `buf`; none of a longer one.
pub fn read_whole<R: Read>(input: &mut R, buf: &mut [u8]) -> io::Result<Option<usize>>
    ensures bound { IfOk result (λ whole. IfSome whole (λ n. n ≤ length buf.new)) }
    ensures bytes { IfOk result (λ whole. IfSome (R.remaining input.old)
        (λ all. MatchOption whole (length buf.old < length all)
        (λ n. (length all ≤ length buf.old) × (take n buf.new ≡ all)))) }
    ensures end { IfOk result (λ whole. IfSome whole (λ _. IsAtEnd (R.remaining input.new))) }
{
    let n = read_full(input, buf)?;
    if n == buf.len() && has_more(input)? {
        return Ok(None);
    }
    Ok(Some(n))
}

// Reads the input to its end, and gives how many of its bytes now start `buf`: those past its end are dropped.
// After an error the bytes that came before it start `buf`, as far as they fit, and nothing says how many they are.
pub fn read_all<R: Read>(input: &mut R, buf: &mut [u8]) -> io::Result<usize>
    ensures bound { ReadsAtMost result buf.new }
    ensures bytes { IfOk result (λ n. IfSome (R.remaining input.old)
        (λ xs. take n buf.new ≡ take (length buf.old) xs)) }
    ensures end { OnOk result (IsAtEnd (R.remaining input.new)) }
{
    let n = read_full(input, buf)?;
    if n == buf.len() {
        io::copy(input, &mut io::sink())?;
    }
    Ok(n)
}

#[cfg(test)]
mod tests {
    use super::*;
    use std::test::Fail;

    #[test]
    fn whole_up_to_the_most(rt: HostRuntime) -> Result<(), Fail> {
        let mut input = io::repeat(b'x').take(65536);
        let mut buf = vec![in rt.alloc(); 0; 65536]?;
        let n = read_whole(&mut input, &mut buf)?.ok_or("too long")?;
        assert_eq!(rt; n, 65536);
        Ok(())
    }

    #[test]
    fn none_of_a_longer_one(rt: HostRuntime) -> Result<(), Fail> {
        let mut input = io::repeat(b'x').take(65537);
        let mut buf = vec![in rt.alloc(); 0; 65536]?;
        assert!(rt; read_whole(&mut input, &mut buf)?.is_none());
        Ok(())
    }

    #[test]
    fn first_of_a_longer_one(rt: HostRuntime) -> Result<(), Fail> {
        let mut input: &[u8] = b"offer answer";
        let mut buf = [0u8; 5];
        let n = read_all(&mut input, &mut buf)?;
        assert_eq!(rt; &buf[..n], b"offer".as_slice());
        assert!(rt; input.is_empty());
        Ok(())
    }
}
