// One call's line.
ghost use Rattle.std.specs.Prelude.{◌≡◌};
ghost use Rattle.callfile.specs.Ask.{behind, ask_at};

use callfile::Ask;
use cursor::Cursor;
use flow::Asked;
use frame::numbers_behind;

// What stands behind a letter: a space before each figure.
fn behind(letter: u8, s: &[u8], at: Cursor) -> Option<(Ask, Cursor)>
    ensures { result ≡ behind letter s.now at.at }
{
    match letter {
        b'O' => {
            let ([session, origin, text], end) = numbers_behind::<3>(s, at, b' ')?;
            Some((
                Ask::Offer {
                    session,
                    origin,
                    text,
                },
                end,
            ))
        }
        b'A' => {
            let ([session, text], end) = numbers_behind::<2>(s, at, b' ')?;
            Some((Ask::Answer { session, text }, end))
        }
        b'C' => {
            let ([session], end) = numbers_behind::<1>(s, at, b' ')?;
            Some((Ask::Cancel { session }, end))
        }
        b'X' => {
            let ([session], end) = numbers_behind::<1>(s, at, b' ')?;
            Some((Ask::Close { session }, end))
        }
        b'B' => {
            let ([session, set, class, up, down], end) = numbers_behind::<5>(s, at, b' ')?;
            let asked = Asked {
                set,
                class,
                up,
                down,
            };
            Some((Ask::Bearer { session, asked }, end))
        }
        _ => None,
    }
}

// The call at a place of a file that has so many texts.
pub fn ask_at(s: &[u8], at: Cursor, texts: u64) -> Option<(Ask, Cursor)>
    ensures { result ≡ ask_at s.now at.at texts }
{
    let letter = *s.get(at.at)?;
    let (ask, end) = behind(letter, s, Cursor { at: at.at + 1 })?;
    let next = end.mark(s, b'\n')?;
    if ask.lacks_text(texts) {
        return None;
    }
    Some((ask, next))
}
