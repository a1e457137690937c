// Which line of a text a place is in.
ghost use Rattle.std.specs.Prelude.{◌≡◌, ◌≤◌, ◌+◌, length, take};
ghost use Rattle.grammar.specs.Grammar.{line_ends};

/// The number of the line, from 1, in which a place of the text is.
pub fn line_of(text: &[u8], at: u64) -> u64
    requires { at ≤ length text.now }
    ensures { result ≡ line_ends (take at text.now) + 1 }
{
    line_ends(&text[..at as usize]) as u64 + 1
}

fn line_ends(text: &[u8]) -> usize
    ensures count { result ≡ line_ends text.now }
    ensures bound { result ≤ length text.now }
{
    text.iter().filter(|b| **b == b'\n').count()
}
