// A text, read: what the definitions of `sdp` say of its bytes.
#![tactic(auto)]

mod line;
mod scan;
mod section;

ghost use Rattle.std.specs.Prelude.{◌≡◌};
ghost use Rattle.sdp.specs.Text.{read_text};

use sdp::Text;

// Any bytes: what they say, or the one refusal at the one place.
pub fn read(text: &[u8]) -> Text
    ensures { result ≡ read_text text.now }
{
    let mut out = Text::default();
    if let Err(refused) = scan::scan(text, &mut out) {
        out = refused.into();
    }
    out
}
