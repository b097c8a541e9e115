ghost use Rattle.std.specs.Prelude.{◌≡◌, ◌+◌, ◌≤◌, not, length};
ghost use Rattle.std.specs.List.{suffix_len};
ghost use Rattle.c_lexer.specs.Bytes.{is_newline};
ghost use Rattle.c_lexer.specs.Faults as faults;

use c_types::Refusal;

/// The refusal of a text for a reason at an offset, which may be the text's length: its line, counted
/// from 1 by newline bytes, and its column, counted from 1 by bytes.
pub fn refusal_at(reason: u32, text: &[u8], at: u64) -> Refusal
    requires { at ≤ length text.now }
    ensures { result ≡ faults.refusal_of reason text.now at }
{
    let before = &text[..at as usize];
    Refusal {
        reason,
        line: line_of(before),
        column: column_of(before),
        at,
    }
}

fn line_of(before: &[u8]) -> u64
    ensures { result ≡ faults.line_of before.now }
{
    1 + before.iter().filter(|byte| **byte == b'\n').count() as u64
}

fn column_of(before: &[u8]) -> u64
    ensures { result ≡ faults.column_of before.now }
{
    1 + count_behind_newline(before) as u64
}

fn count_behind_newline(before: &[u8]) -> usize
    ensures value { result ≡ suffix_len (λ byte. not (is_newline byte)) before.now }
    ensures bound { result ≤ length before.now }
{
    before
        .iter()
        .rev()
        .take_while(|byte| **byte != b'\n')
        .count()
}
