//! Places of lines in a report.

ghost use Rattle.std.specs.Prelude.{◌≡◌, ◌<◌, ◌-◌, ◌==◌, cond};
ghost use Rattle.move_replay.specs.Lines.{line_start as the_line_start};

/// How many ends of lines are left to be passed behind this byte.
fn ends_left(left: usize, byte: u8) -> usize
    requires { 0 < left }
    ensures { result ≡ cond (byte == 10) (left - 1) left }
{
    if byte == b'\n' { left - 1 } else { left }
}

/// Where the line with this number begins, counted from 0. Lines end at newlines.
pub fn line_start(text: &[u8], number: usize) -> usize
    ensures { result ≡ the_line_start number text.now }
{
    let mut left = number;
    for i in 0..text.len() {
        if left == 0 {
            return i;
        }
        left = ends_left(left, text[i]);
    }
    text.len()
}
