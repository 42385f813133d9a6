// The scan of a text, line by line and section by section, up to the first faulty line.
ghost use Rattle.std.specs.Prelude.{◌≡◌, ◌<◌, ◌^◌, Err, IfErr};
ghost use Rattle.sdp.specs.Fault.{fault_number};
ghost use Rattle.sdp.specs.Section.{closed, line_in};
ghost use Rattle.sdp.specs.Text.{refusal, read_text};
ghost use Rattle.reader.specs.Steps.{outcome, read_on, start, ends_here, lacking_here, stop_here, session_here, media_after, inside_here};

use crate::line::{Line, Lines};
use crate::section;
use crate::section::Span;
use cursor::Next;
use sdp::fault::Fault;
use sdp::media_line::MediaLine;
use sdp::section::{Section, Session};
use sdp::{Media, Text};

// Why a text says nothing: the refusal's number, and the line that it names.
#[derive(Clone, Copy)]
pub struct Refused {
    pub number: u16,
    pub place: u16,
}

impl Refused {
    // The fault of a line, and which line it is.
    fn of(fault: Fault, line: u16) -> Refused
        ensures number { result.number ≡ fault_number fault }
        ensures place { result.place ≡ line }
    {
        Refused {
            number: fault.into(),
            place: line,
        }
    }
}

impl From<Refused> for Text {
    ghost from_gives = { λ refused text. text ≡ refusal refused.number refused.place };

    fn from(refused: Refused) -> Text {
        Text {
            refusal: refused.number,
            place: refused.place,
            ..Text::default()
        }
    }
}

// Where reading stands: at the start of which line, how many `m=` lines came, the first `m=` line of an ended section with a
// live port and no address, what the session section says once it has ended, and the section so far.
#[derive(Clone, Copy, Default)]
pub struct Here {
    pub at: usize,
    pub line: u16,
    pub lacking: Option<u16>,
    pub count: u32,
    pub session: Session,
    pub section: Section,
}

impl Here {
    // Before line 2, which starts at `at`.
    fn start(at: usize) -> Here
        ensures { result ≡ start at }
    {
        Here {
            at,
            line: 2,
            ..Here::default()
        }
    }

    // Whether a media section ends before this line, or where no good line follows.
    fn ends(&self, line: Option<Line>) -> bool
        ensures { result ≡ ends_here self.now line }
    {
        self.count != 0 && line.is_none_or(|line| line.letter == b'm')
    }

    // The description of the media section that ends here.
    fn media(&self) -> Media
        ensures { result ≡ closed self.now.session self.now.section }
    {
        section::close(self.session, self.section)
    }

    // The first `m=` line without the address that it needs, with the section that ends here.
    fn lacks(&self) -> Option<u16>
        ensures { result ≡ lacking_here self.now }
    {
        if self.lacking.is_some() {
            return self.lacking;
        }
        if self.count != 0 && section::lacks_address(self.media()) {
            return Some(self.section.line);
        }
        None
    }

    // No good line: the end of the text, where 9 is the last test, or a faulty line.
    fn stop(&self, len: usize) -> Result<(), Refused>
        ensures { result ≡ stop_here self.now len }
    {
        if self.at < len {
            return Err(Refused {
                number: 2,
                place: self.line,
            });
        }
        match self.lacks() {
            Some(place) => Err(Refused { number: 9, place }),
            None => Ok(()),
        }
    }

    // What the session section says, once it has ended.
    fn session(&self) -> Session
        ensures { result ≡ session_here self.now }
    {
        if self.count == 0 {
            section::session(self.section)
        } else {
            self.session
        }
    }

    // Where a line that starts here stands.
    fn span(&self, line: Line) -> Span
        requires { (self.now.at < 2 ^ 16) × (line.end < 2 ^ 16) }
        ensures from { result.from ≡ self.now.at }
        ensures to { result.to ≡ line.end }
    {
        Span {
            from: self.at as u16,
            to: line.end as u16,
        }
    }

    // A media section has begun with an `m=` line.
    fn begun(&self, m: MediaLine, line: Span) -> Here
        requires { self.now.count < 8 }
        ensures { result ≡ media_after self.now m line }
    {
        let session = self.session();
        Here {
            lacking: self.lacks(),
            session,
            section: section::begin(session, m, self.line, line),
            count: self.count + 1,
            ..*self
        }
    }

    // The refusal of this line, and its place, where what it says is a fault.
    fn refused<T: Copy>(&self, said: Result<T, Fault>) -> Result<(), Refused>
        ensures { IfErr said (λ fault. result ≡ Err (record { number = fault_number fault; place = self.now.line })) }
    {
        match said {
            Ok(_) => Ok(()),
            Err(fault) => Err(Refused::of(fault, self.line)),
        }
    }

    // The section with a line other than `m=`.
    fn told(&self, letter: u8, v: &[u8], line: Span) -> Result<Section, Fault>
        ensures { result ≡ line_in self.now.section (inside_here self.now) letter v.now line.from line.to }
    {
        section::line_in(self.section, self.count != 0, letter, v, line)
    }
}

// The lines from `from` on, the first of which is line 2. What they say is told into `out`.
fn sections(lines: &Lines<'_>, from: usize, out: &mut Text) -> Result<(), Refused>
    requires { out.old ≡ refusal 0 0 }
    ensures { outcome out.new result ≡ read_on lines.now.text.now from }
{
    let mut here = Here::start(from);
    'lines: loop {
        let line = lines.line_at(here.at);
        if here.ends(line) {
            let i = (here.count - 1) as usize;
            out.media[i] = here.media();
            out.spots[i] = here.section.spot;
            out.count = here.count;
        }
        let Some(line) = line else {
            break 'lines here.stop(lines.text.len());
        };
        let v = &lines.text[here.at + 2..line.end];
        let span = here.span(line);
        if line.letter == b'm' {
            let said = heads::head_of(here.count, v);
            let Ok(head) = said else {
                break 'lines here.refused(said);
            };
            let mut c = head.formats;
            'fields: loop {
                match c.next_field(v) {
                    Next::More(next) => c = next,
                    Next::Last => break 'fields,
                    Next::Empty => break 'lines Err(Refused::of(Fault::MediaLine, here.line)),
                }
            }
            let judged = heads::judge(head);
            let Ok(m) = judged else {
                break 'lines here.refused(judged);
            };
            here = here.begun(m, span);
        } else if section::matters(line.letter, v) {
            let told = here.told(line.letter, v, span);
            let Ok(section) = told else {
                break 'lines here.refused(told);
            };
            here.section = section;
        }
        here.at = line.next;
        here.line += 1;
    }
}

// The whole text.
pub(crate) fn scan(text: &[u8], out: &mut Text) -> Result<(), Refused>
    requires { out.old ≡ refusal 0 0 }
    ensures { outcome out.new result ≡ read_text text.now }
{
    let Some(lines) = Lines::of(text) else {
        return Err(Refused {
            number: 1,
            place: 0,
        });
    };
    let no_version = Refused {
        number: 2,
        place: 1,
    };
    let Some(version) = lines.line_at(0) else {
        return Err(no_version);
    };
    if !cursor::same(&text[..version.end], b"v=0") {
        return Err(no_version);
    }
    sections(&lines, version.next, out)
}
