// The line of the offer or the answer that decided a component's status.
#![tactic(auto)]

ghost use Rattle.std.specs.Prelude.{◌≡◌, ◌<◌, MatchResult};
ghost use Rattle.sdp.specs.Text.{read_text};
ghost use Rattle.flow.specs.Deciding.{line_at, refused_by, deciding_spot, deciding_at, decision, deciding_line};

use flow::Decision;
use rules::fitting;
use sdp::direction::Direction;
use sdp::{Media, Spot, Text};

// A part of text 1, the offer, or 2, the answer, from `start` to before `end`.
#[derive(Clone, Copy)]
struct Line {
    text: u64,
    start: u16,
    end: u16,
}

// A refusal, its place, and which text failed: 1 the offer, 2 the answer, else 0.
#[derive(Clone, Copy)]
struct Refused {
    refusal: u64,
    place: u64,
    failed: u64,
}

impl From<Line> for Decision {
    ghost from_gives = { λ line d. d ≡ line_at line.text line.start line.end };

    fn from(line: Line) -> Decision {
        Decision {
            refusal: 0,
            place: 0,
            failed: 0,
            text: line.text,
            start: u64::from(line.start),
            end: u64::from(line.end),
        }
    }
}

impl From<Refused> for Decision {
    ghost from_gives = { λ r d. d ≡ refused_by r.refusal r.place r.failed };

    fn from(r: Refused) -> Decision {
        Decision {
            refusal: r.refusal,
            place: r.place,
            failed: r.failed,
            text: 2,
            start: 0,
            end: 0,
        }
    }
}

fn media_line(text: u64, spot: &Spot) -> Line
    ensures { result ≡ record { text = text; start = spot.now.start; end = spot.now.end } }
{
    Line {
        text,
        start: spot.start,
        end: spot.end,
    }
}

fn direction_line(text: u64, spot: &Spot) -> Line
    ensures { result ≡ record { text = text; start = spot.now.from; end = spot.now.to } }
{
    Line {
        text,
        start: spot.from,
        end: spot.to,
    }
}

// By port, offer first, then by direction (NOTE 4).
#[tactic(auto, using(cursor::proofs::Kit::tests), unfolding(flow::specs::Deciding::deciding_spot))]
fn line_of(offer: &Media, answer: &Media, in_offer: &Spot, in_answer: &Spot) -> Line
    ensures { line_at result.text result.start result.end ≡ deciding_spot offer.now answer.now in_offer.now in_answer.now }
{
    if offer.port == 0 {
        media_line(1, in_offer)
    } else if answer.port == 0 {
        media_line(2, in_answer)
    } else if offer.direction == u16::from(Direction::Inactive) {
        direction_line(1, in_offer)
    } else if in_answer.to == 0 {
        media_line(2, in_answer)
    } else {
        direction_line(2, in_answer)
    }
}

// Of the component at slot j.
fn slot_line(offer: &Text, answer: &Text, j: usize) -> Line
    requires { j < 8 }
    ensures { line_at result.text result.start result.end ≡ deciding_at offer.now answer.now j }
{
    line_of(
        &offer.media[j],
        &answer.media[j],
        &offer.spots[j],
        &answer.spots[j],
    )
}

// What the text of this number says.
fn read(text: &[u8], number: u64) -> Result<Text, Refused>
    ensures { MatchResult result (λ t. (t ≡ read_text text.now) × (t.refusal ≡ 0))
        (λ r. ((read_text text.now).refusal ≡ 0 → ⊥) × (r ≡ record { refusal = (read_text text.now).refusal; place = (read_text text.now).place; failed = number })) }
{
    let t = reader::read(text);
    if t.refusal != 0 {
        return Err(Refused {
            refusal: u64::from(t.refusal),
            place: u64::from(t.place),
            failed: number,
        });
    }
    Ok(t)
}

// The deciding line of a component, from 1.
fn find(offer: &[u8], answer: &[u8], component: u64) -> Result<Line, Refused>
    ensures { MatchResult result (λ line. line_at line.text line.start line.end ≡ decision offer.now answer.now component)
        (λ r. refused_by r.refusal r.place r.failed ≡ decision offer.now answer.now component) }
{
    let o = read(offer, 1)?;
    let a = read(answer, 2)?;
    if let Some(place) = fitting::misfit(&fitting::said_in(&o), &fitting::said_in(&a)) {
        return Err(Refused {
            refusal: 15,
            place,
            failed: 0,
        });
    }
    if (component == 0) | (u64::from(o.count) < component) {
        return Err(Refused {
            refusal: 10,
            place: 0,
            failed: 0,
        });
    }
    let j = (component - 1) as usize;
    Ok(slot_line(&o, &a, j))
}

// Where the deciding line stands; or the number, the place and which text failed.
pub fn decide(offer: &[u8], answer: &[u8], component: u64) -> Decision
    ensures { result ≡ decision offer.now answer.now component }
{
    match find(offer, answer, component) {
        Ok(line) => line.into(),
        Err(refused) => refused.into(),
    }
}

// The deciding line itself, a part of one of the two texts; refused, an empty part of the answer.
pub fn deciding_line<'a>(offer: &'a [u8], answer: &'a [u8], component: u64) -> &'a [u8]
    ensures { result.now ≡ deciding_line offer.now answer.now component }
{
    let d = decide(offer, answer, component);
    let text = if d.text == 1 { offer } else { answer };
    &text[d.start as usize..d.end as usize]
}
