// What goes to a writer, as standard output. After an error some of it may be written.
ghost use Rattle.std.specs.Prelude.{OnOk, codes};
ghost use Rattle.std.specs.Io.KnownBytes.{Appends};

use std::io::{self, Write};

pub fn bad_file<W: Write>(out: &mut W) -> io::Result<()>
    ensures { OnOk result
        (Appends (W.contents out.old) (W.contents out.new) (codes "bad file\n")) }
{
    out.write_all(b"bad file\n")
}
