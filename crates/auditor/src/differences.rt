//! Where two texts differ.
ghost use Rattle.std.specs.Prelude.{◌≡◌};
ghost use Rattle.auditor.specs.Verdict.{first_difference};

/// The first line, from 1, in which two texts differ.
pub fn first_difference(left: &[u8], right: &[u8]) -> Option<u64>
    ensures { result ≡ first_difference 1 left.now right.now }
{
    let mut line = 1u64;
    let mut rest = left;
    let mut other = right;
    while let [byte, more @ ..] = rest {
        let [matched, further @ ..] = other else {
            return Some(line);
        };
        if *byte != *matched {
            return Some(line);
        }
        if *byte == b'\n' {
            line += 1;
        }
        rest = more;
        other = further;
    }
    if other.is_empty() { None } else { Some(line) }
}
