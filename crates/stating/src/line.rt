// The line of one component.
ghost use Rattle.std.specs.Prelude.{◌≡◌};
ghost use Rattle.put.specs.Put.{Puts};
ghost use Rattle.statement.specs.Statement.{kind_name, component_line};

use flow::Component;
use put::Buffer;
use sdp::media_line::Kind;

#[tactic(auto, unfolding(statement::specs::Statement::kind_name))]
fn name_of(kind: u16) -> &'static [u8]
    ensures { result.now ≡ kind_name kind }
{
    match Kind::try_from(kind) {
        Ok(Kind::Audio) => b"audio",
        Ok(Kind::Video) => b"video",
        Ok(Kind::Application) => b"application",
        Ok(Kind::Data) => b"data",
        Ok(Kind::Control) => b"control",
        Ok(Kind::Other) | Err(_) => b"other",
    }
}

// Into a buffer from its start on; the line's length is returned.
pub fn put_component(out: &mut [u8], number: u64, c: &Component) -> usize
    ensures { Puts out.old 0 (component_line number c.now) result out.new }
{
    let mut line = Buffer { out, at: 0 };
    line.number(number);
    line.byte(b' ');
    line.word(name_of(c.kind));
    line.numbers(&[
        u64::from(c.status),
        u64::from(c.class),
        u64::from(c.up.media),
        u64::from(c.down.media),
        c.up.rtcp.0,
        c.down.rtcp.0,
    ]);
    line.byte(b'\n');
    line.at
}
