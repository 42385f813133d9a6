// The lines of a text: where each ends, and whether it has the form of a line.
ghost use Rattle.std.specs.Prelude.{◌≡◌, ◌+◌, ◌≤◌, ◌<◌, length, get_or, drop, true, MatchOption, EachIndex, slice_index};
ghost use Rattle.cursor.specs.Bytes.{front};
ghost use Rattle.sdp.specs.Line.{is_text};
ghost use Rattle.reader.specs.Steps.{line_at, LastEnd, past_ending};

// A line from where it starts: its letter, where its bytes end, and where the next line starts.
#[derive(Clone, Copy)]
pub struct Line {
    pub letter: u8,
    pub end: usize,
    pub next: usize,
}

// A text of at most 4,096 bytes, and where its last line with an ending ends: past the last LF, or 0 where there is none.
#[derive(Clone, Copy)]
pub struct Lines<'a> {
    pub text: &'a [u8],
    last: usize,
    pub ghost short: { length text.now ≤ 4096 },
    ghost last_end: { LastEnd text.now last },
}

#[tactic(auto, unfolding(sdp::specs::Line::is_text))]
fn is_text(b: u8) -> bool
    ensures { result ≡ is_text b }
{
    !matches!(b, 0 | b'\n' | b'\r')
}

// Whether all bytes are above CR. They are looked at side by side.
fn high(s: &[u8]) -> bool
    ensures high { result ≡ true → EachIndex s.now (λ k. 13 < slice_index s.now k) }
    ensures all { EachIndex s.now (λ k. 13 < slice_index s.now k) → result ≡ true }
{
    let mut high = true;
    for &b in s {
        high &= b'\r' < b;
    }
    high
}

impl<'a> Lines<'a> {
    pub fn of(text: &'a [u8]) -> Option<Lines<'a>>
        ensures { MatchOption result (4096 < length text.now) (λ lines. lines.text.now ≡ text.now) }
    {
        if 4096 < text.len() {
            return None;
        }
        let last = text.iter().rposition(|&b| b == b'\n').map_or(0, |i| i + 1);
        Some(Lines { text, last })
    }

    // The byte at i, or 0 past the end.
    fn byte(&self, i: usize) -> u8
        ensures { result ≡ get_or self.now.text.now i 0 }
    {
        self.text.get(i).copied().unwrap_or(0)
    }

    // Where the bytes other than NUL, CR and LF end: an LF stands before `last`.
    fn text_end(&self, from: usize) -> usize
        requires { from < self.now.last }
        ensures { result ≡ from + length (front is_text (drop from self.now.text.now)) }
    {
        let mut at = from;
        while at + 16 <= self.last && high(&self.text[at..at + 16]) {
            at += 16;
        }
        for end in at..self.last {
            if !is_text(self.text[end]) {
                return end;
            }
        }
        self.last
    }

    // Past the ending at e, LF or CR LF, where there is one.
    #[tactic(auto, unfolding(crate::specs::Steps::past_ending))]
    fn past_ending(&self, e: usize) -> Option<usize>
        ensures { result ≡ past_ending self.now.text.now e }
    {
        match self.byte(e) {
            b'\n' => Some(e + 1),
            b'\r' if self.byte(e + 1) == b'\n' => Some(e + 2),
            _ => None,
        }
    }

    // The line that starts at `at`, where it has the form of a line.
    pub fn line_at(&self, at: usize) -> Option<Line>
        ensures { result ≡ line_at self.now.text.now at }
    {
        if self.last <= at {
            return None;
        }
        let end = self.text_end(at);
        let next = self.past_ending(end)?;
        let n = end - at;
        if n < 2 || 256 < n {
            return None;
        }
        let letter = self.byte(at);
        if !letter.is_ascii_lowercase() || self.byte(at + 1) != b'=' {
            return None;
        }
        Some(Line { letter, end, next })
    }
}
