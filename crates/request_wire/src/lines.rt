ghost use Rattle.std.specs.Prelude.{◌≡◌, ◌==◌, ◌<◌, [], ◌∷◌, length, MatchOption, IfSome};
ghost use Rattle.std.specs.List.{position};
ghost use Rattle.request_wire.specs.Lines.{lines_of};

/// Where the first line feed stands.
fn line_feed_at(input: &[u8]) -> Option<usize>
    ensures { result ≡ position (λ b. b == 10) input.now }
{
    input.iter().position(|byte| *byte == b'\n')
}

/// The first line of the input without its line feed, and what follows that line feed. `None` exactly
/// where there is no line, which is where the input is empty.
#[tactic(auto, using(crate::proofs::Cuts::cuts))]
pub fn first_line(input: &[u8]) -> Option<(&[u8], &[u8])>
    ensures line { MatchOption result (lines_of input.now ≡ [])
        (λ cut. lines_of input.now ≡ cut.0.now ∷ lines_of cut.1.now) }
    ensures shorter { IfSome result (λ cut. length cut.1.now < length input.now) }
{
    if input.is_empty() {
        return None;
    }
    match line_feed_at(input) {
        Some(end) => Some((&input[..end], &input[end + 1..])),
        None => Some((input, &[])),
    }
}
