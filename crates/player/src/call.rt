// A call of the file on its row.
ghost use Rattle.std.specs.Prelude.{◌≡◌};
ghost use Rattle.book.specs.Model.{row_call};
ghost use Rattle.evening.specs.Playing.{spanned, call_with};
ghost use Rattle.player.specs.Steps.{step_of};

use book::Stepped;
use callfile::Ask;
use calls::row::Named;
use flow::Settings;
use frame::Span;

// What lies past the end is left out.
pub fn spanned(s: &[u8], span: Span) -> &[u8]
    ensures { result.now ≡ spanned s.now span }
{
    let end = span.end.min(s.len());
    let from = span.from.min(end);
    &s[from..end]
}

// The row after the call, and the answer. The text is the one that the call names.
#[tactic(auto, unfolding(book::specs::Model::row_call, evening::specs::Playing::call_with))]
pub fn step(settings: Settings, named: Named, ask: Ask, text: &[u8]) -> Stepped
    ensures { result ≡ step_of (row_call settings named.seen named.row (call_with text.now ask)) }
{
    match ask {
        Ask::Offer { origin, .. } => named.offer(origin, text),
        Ask::Answer { .. } => named.answer(settings, text),
        Ask::Cancel { .. } => named.cancel(),
        Ask::Close { .. } => named.close(),
        Ask::Bearer { asked, .. } => Stepped {
            row: named.row,
            reply: named.bearer(asked),
        },
    }
}
