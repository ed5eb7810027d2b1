ghost use Rattle.std.specs.Prelude.{◌≡◌};
ghost use Rattle.cases.specs.Compared.{common_lines, IsVerdict};

/// What is said of a case.
#[derive(Clone, Copy, Debug, PartialEq, Eq)]
pub enum Verdict {
    /// It prints the wanted text and ends with the wanted status.
    Passed,
    /// It prints another text, which has so many whole lines in common with the wanted one before
    /// they differ, and ends with that status.
    OtherText { lines: usize, status: u8 },
    /// It prints the wanted text, and ends with that other status.
    OtherStatus { status: u8 },
    /// It prints the wanted text and ends with the wanted status, which is this one, and a file is
    /// not what it was to be afterwards.
    OtherFiles { status: u8 },
}

/// Compares what a script printed and how it ended with what was wanted.
pub fn compare(wanted: &[u8], wanted_status: u8, text: &[u8], status: u8) -> Verdict
    ensures { IsVerdict wanted.now wanted_status text.now status result }
{
    if text != wanted {
        let lines = common_lines(wanted, text);
        return Verdict::OtherText { lines, status };
    }
    if status != wanted_status {
        return Verdict::OtherStatus { status };
    }
    Verdict::Passed
}

/// How many whole lines two texts have in common at their beginning.
fn common_lines(text: &[u8], other: &[u8]) -> usize
    ensures { result ≡ common_lines text.now other.now }
{
    let mut lines = 0;
    let mut at = 0;
    while at < text.len() && at < other.len() && text[at] == other[at] {
        if text[at] == b'\n' {
            lines += 1;
        }
        at += 1;
    }
    lines
}
