// Whether a number is that of a class.
ghost use Rattle.std.specs.Prelude.{◌≡◌};
ghost use Rattle.flow.specs.Range.{is_class};

#[tactic(auto, unfolding(flow::specs::Range::is_class))]
pub fn is_class(n: u16) -> bool
    ensures { result ≡ is_class n }
{
    matches!(n, 0 | 2 | 4 | 6 | 8 | 9)
}
