// An evening of calls: a call file played over a book of sixteen fresh rows, its answers written into a lent buffer.
#![tactic(auto)]

mod call;
mod playing;
mod totals;

ghost use Rattle.std.specs.Prelude.{◌≡◌, length};
ghost use Rattle.evening.specs.Playing.{output, output_into};

use callreader::section;

// What is printed for a call file. Where it does not fit the buffer, no byte changes. The length of all of it is returned.
pub fn play(file: &[u8], out: &mut [u8]) -> usize
    ensures value { result ≡ length (output file.now) }
    ensures out_after { out.new ≡ output_into file.now out.old }
{
    let read = section::read(file);
    if out.len() < playing::room(playing::calls_of(read)) {
        let need = playing::put_all(file, read, &mut out[..0]);
        if out.len() < need {
            return need;
        }
    }
    playing::put_all(file, read, out)
}
