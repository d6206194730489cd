ghost use Rattle.std.specs.Prelude.{◌≡◌, ◌+◌, ◌<◌, ◌++◌, length, drop, MatchResult};
ghost use Rattle.names.specs.declared.refusals.Refusal.TheVariants.{ShortBuffer};

use names::Refusal;

// Writes `front` and then `back` from the start of `out`: how many bytes. Where `out` is too short it is refused and stays as it is.
pub fn lay_out(front: &[u8], back: &[u8], out: &mut [u8]) -> Result<usize, Refusal>
    ensures { MatchResult result (λ n. (n ≡ length front.now + length back.now) × (out.new ≡ front.now ++ (back.now ++ drop n out.old))) (λ e. (e ≡ ShortBuffer) × (length out.old < length front.now + length back.now) × (out.new ≡ out.old)) }
{
    let middle = front.len();
    let end = middle + back.len();
    if out.len() < end {
        return Err(Refusal::ShortBuffer);
    }
    out[..middle].copy_from_slice(front);
    out[middle..end].copy_from_slice(back);
    Ok(end)
}
