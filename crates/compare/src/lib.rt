// Where two runs of octets differ.
#![tactic(auto)]

ghost use Rattle.std.specs.Prelude.{◌≡◌};
ghost use Rattle.definition.specs.Answers.{differ};

// The first octet that differs, or the shorter length; none where there is no difference.
pub fn first_difference(s: &[u8], t: &[u8]) -> Option<usize>
    ensures { result ≡ differ 0 s.now t.now }
{
    let n = s.len().min(t.len());
    let (front, other) = (&s[..n], &t[..n]);
    if front == other {
        return (s.len() != t.len()).then_some(n);
    }
    front.iter().zip(other).position(|(x, y)| x != y)
}
