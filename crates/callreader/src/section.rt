// The three sections of the file in their order, each after its count: the settings, the texts, the calls.
ghost use Rattle.std.specs.Prelude.{◌≡◌};
ghost use Rattle.callfile.specs.Ask.{calls_good};
ghost use Rattle.callfile.specs.Sections.{AllSmall, settings_of, settings_at, texts_at, read_file};

use crate::call;
use callfile::{CallFile, Texts};
use cursor::Cursor;
use flow::{Limit, Settings};

// Media default up and down, RTCP default up and down, pool up and down.
fn settings_of(figures: [u64; 6]) -> Settings
    requires { AllSmall figures }
    ensures { result ≡ settings_of figures }
{
    Settings {
        media: Limit {
            up: figures[0] as u32,
            down: figures[1] as u32,
        },
        rtcp: Limit {
            up: figures[2] as u32,
            down: figures[3] as u32,
        },
        pool: Limit {
            up: figures[4] as u32,
            down: figures[5] as u32,
        },
    }
}

// The first section, at the start of the file.
pub fn settings_at(s: &[u8]) -> Option<(Settings, Cursor)>
    ensures { result ≡ settings_at s.now }
{
    let (count, behind) = frame::number(s, Cursor { at: 0 })?;
    if count != 6 {
        return None;
    }
    let (figures, end) = frame::numbers_behind(s, behind, b'\n')?;
    let next = end.mark(s, b'\n')?;
    Some((settings_of(figures), next))
}

// The second section, at a place of the file.
pub fn texts_at(s: &[u8], from: Cursor) -> Option<(Texts, Cursor)>
    ensures { result ≡ texts_at s.now from.at }
{
    let (count, mut at) = frame::number_line(s, from)?;
    if 64 < count {
        return None;
    }
    let mut texts = Texts::none();
    for _ in 0..count {
        let span = frame::text(s, at)?;
        texts.spans[texts.count as usize] = span;
        texts.count += 1;
        at = Cursor { at: span.end };
    }
    Some((texts, at))
}

// Whether `count` calls stand from a place on, and nothing after them.
pub fn calls_good(s: &[u8], from: Cursor, count: u64, texts: u64) -> bool
    ensures { result ≡ calls_good count s.now texts from.at }
{
    let mut at = from;
    for _ in 0..count {
        let Some((_, next)) = call::ask_at(s, at, texts) else {
            return false;
        };
        at = next;
    }
    at.at == s.len()
}

// The whole file.
pub fn read(s: &[u8]) -> Option<CallFile>
    ensures { result ≡ read_file s.now }
{
    if 49152 < s.len() {
        return None;
    }
    let (settings, second) = settings_at(s)?;
    let (texts, third) = texts_at(s, second)?;
    let (calls, at) = frame::number_line(s, third)?;
    if !calls_good(s, at, calls, texts.count) {
        return None;
    }
    Some(CallFile {
        settings,
        texts,
        calls,
        at,
    })
}
