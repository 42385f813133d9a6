// Plays the call file on standard input, with the output on standard output.
#![tactic(auto)]

ghost use Rattle.std.specs.Prelude.{◌≡◌, length, take, IfSome, OnOk};
ghost use Rattle.std.specs.Io.KnownBytes.{Appends};
ghost use Rattle.evening.specs.Playing.{output};
ghost use Rattle.player.specs.Steps.{most_room};

use console::input;
use std::io::{self, Read, Write};

// One byte more than a call file may have, so that a longer input is a bad file.
fn file_buffer() -> [u8; 49153]
    ensures { 49153 ≡ length result }
{
    [0; 49153]
}

// Room for any output: a call has four bytes of the file or more, so there are at most 12,288; 128 bytes each, and 128 more.
fn room_buffer() -> [u8; 1572992]
    ensures { most_room ≡ length result }
{
    [0; 1572992]
}

// Writes the output, all of it: it fits.
#[tactic(auto, using(crate::proofs::Room::whole_in, crate::proofs::Room::whole_is))]
fn play_file<W: Write>(to: &mut W, file: &[u8], room: &mut [u8]) -> io::Result<()>
    requires { most_room ≡ length room.old }
    ensures { OnOk result (Appends (W.contents to.old) (W.contents to.new) (output file.now)) }
{
    let n = player::play(file, room);
    to.write_all(&room[..n])
}

// Plays what there is to read, up to its first 49,153 bytes.
fn run<R: Read, W: Write>(from: &mut R, to: &mut W) -> io::Result<()>
    ensures { OnOk result (IfSome (R.remaining from.old)
        (λ all. Appends (W.contents to.old) (W.contents to.new) (output (take 49153 all)))) }
{
    let mut file = file_buffer();
    let mut room = room_buffer();
    let n = input::read_all(from, &mut file)?;
    play_file(to, &file[..n], &mut room)
}

fn main(rt: HostRuntime) -> io::Result<()> {
    run(&mut rt.stdin(), &mut rt.stdout())
}
