ghost use Rattle.std.specs.Prelude.{◌≡◌, ◌<◌, ◌≤◌, ◌+◌, length, true, false};
ghost use Rattle.std.specs.Option.{IfSome};
ghost use Rattle.c_lexer.specs.Machine as spec;
ghost use Rattle.c_lexer.specs.Characters.{three_digits};

use crate::byte::{
    digit_value, is_character_byte, is_hexadecimal_digit, is_octal_digit, is_power, is_run_byte,
    is_simple_escape, is_space, is_text_byte,
};
use crate::directive::is_directive;
use crate::line::broken_at;
use crate::mark::{Mark, is_whole_mark, longer, mark_at};
use crate::number::integer_constant;
use crate::state::{Closing, Ended, Escape, Progress, State, Taken};
use crate::token::{Span, Token, TokenKind};
use crate::word::word_kind;
use c_types::{is_digit, is_letter, is_word_byte, reasons};

fn found(kind: TokenKind, start: u64, end: u64) -> Ended
    ensures { result ≡ spec.found kind start end }
{
    Ended::Token(Token { kind, start, end })
}

/// A byte that begins something, behind what it ended.
fn begin(first: bool, ended: Ended, byte: u8, at: u64) -> Taken
    requires { at < 18446744073709551615 }
    ensures { result ≡ spec.begin first ended byte at }
{
    if is_space(byte) {
        return Taken::Go(State::Between(byte == b'\n' || first), ended);
    }
    if is_letter(byte) {
        return Taken::Go(State::InWord(at), ended);
    }
    if is_digit(byte) {
        return Taken::Go(State::InNumber(at, false), ended);
    }
    if byte == b'\'' {
        return Taken::Go(State::CharOpened(at), ended);
    }
    if byte == b'"' {
        return Taken::Go(State::InText(at), ended);
    }
    if byte == b'#' {
        if first {
            return Taken::Go(State::InDirective(at, at + 1), ended);
        }
        return Taken::Fault(reasons::NO_TOKEN, at);
    }
    match mark_at(byte) {
        Some(mark) => Taken::Go(State::InMark(at, mark), ended),
        None => Taken::Fault(reasons::NO_TOKEN, at),
    }
}

fn in_word(text: &[u8], start: u64, byte: u8, at: u64) -> Taken
    requires order { start ≤ at }
    requires within { at ≤ length text.now }
    requires room { at < 18446744073709551615 }
    ensures { result ≡ spec.in_word text.now start byte at }
{
    if is_word_byte(byte) {
        return Taken::Go(State::InWord(start), Ended::Nothing);
    }
    let kind = word_kind(&text[start as usize..at as usize]);
    begin(false, found(kind, start, at), byte, at)
}

fn in_number(text: &[u8], start: u64, power: bool, byte: u8, at: u64) -> Taken
    requires order { start ≤ at }
    requires within { at ≤ length text.now }
    requires room { at < 18446744073709551615 }
    ensures { result ≡ spec.in_number text.now start power byte at }
{
    if is_run_byte(power, byte) {
        return Taken::Go(State::InNumber(start, is_power(byte)), Ended::Nothing);
    }
    if integer_constant(&text[start as usize..at as usize]).is_some() {
        begin(false, found(TokenKind::Number, start, at), byte, at)
    } else {
        Taken::Fault(reasons::BAD_INTEGER, start)
    }
}

fn in_mark(start: u64, mark: Mark, byte: u8, at: u64) -> Taken
    requires { at < 18446744073709551615 }
    ensures { result ≡ spec.in_mark start mark byte at }
{
    if matches!(mark, Mark::Slash) && byte == b'*' {
        return Taken::Go(State::InComment(start, Closing::Open), Ended::Nothing);
    }
    if matches!(mark, Mark::Slash) && byte == b'/' {
        return Taken::Go(State::InLine(start, at + 1), Ended::Nothing);
    }
    if matches!(mark, Mark::Dot) && byte == b'.' {
        return Taken::Go(State::Dots(start), Ended::Nothing);
    }
    match longer(mark, byte) {
        Some(other) => Taken::Go(State::InMark(start, other), Ended::Nothing),
        None => begin(false, found(TokenKind::Mark, start, at), byte, at),
    }
}

pub(crate) fn mark(start: u64, end: u64) -> Token
    ensures { result ≡ spec.mark start end }
{
    let kind = TokenKind::Mark;
    Token { kind, start, end }
}

fn in_dots(start: u64, byte: u8, at: u64) -> Taken
    requires order { start < at }
    requires room { at < 18446744073709551615 }
    ensures { result ≡ spec.in_dots start byte at }
{
    if byte == b'.' {
        return Taken::Go(State::InMark(start, Mark::Ellipsis), Ended::Nothing);
    }
    let first = mark(start, start + 1);
    let second = mark(start + 1, at);
    begin(false, Ended::Dots(first, second), byte, at)
}

fn three_digits(first: u8, second: u8, third: u8) -> u32
    ensures { result ≡ three_digits first second third }
{
    (digit_value(first) as u32 * 8 + digit_value(second) as u32) * 8 + digit_value(third) as u32
}

fn escape_step(escape: Escape, byte: u8) -> Progress
    ensures { result ≡ spec.escape_step escape byte }
{
    match escape {
        Escape::Backslash => {
            if is_simple_escape(byte) {
                Progress::Whole
            } else if is_octal_digit(byte) {
                Progress::More(Escape::OneOctal(byte))
            } else if byte == b'x' {
                Progress::More(Escape::HexadecimalStart)
            } else {
                Progress::Wrong
            }
        }
        Escape::OneOctal(first) => {
            if is_octal_digit(byte) {
                Progress::More(Escape::TwoOctal(first, byte))
            } else {
                Progress::Over
            }
        }
        Escape::TwoOctal(first, second) => {
            if !is_octal_digit(byte) {
                Progress::Over
            } else if three_digits(first, second, byte) <= 255 {
                Progress::Whole
            } else {
                Progress::Wrong
            }
        }
        Escape::HexadecimalStart => {
            if is_hexadecimal_digit(byte) {
                Progress::More(Escape::InHexadecimal(digit_value(byte)))
            } else {
                Progress::Wrong
            }
        }
        Escape::InHexadecimal(value) => hexadecimal_step(value, byte),
    }
}

fn hexadecimal_step(value: u8, byte: u8) -> Progress
    ensures { result ≡ spec.escape_step (Escape.InHexadecimal value) byte }
{
    if !is_hexadecimal_digit(byte) {
        return Progress::Over;
    }
    let more = value as u32 * 16 + digit_value(byte) as u32;
    if more <= 255 {
        Progress::More(Escape::InHexadecimal(more as u8))
    } else {
        Progress::Wrong
    }
}

fn char_opened(start: u64, byte: u8) -> Taken
    ensures { result ≡ spec.char_opened start byte }
{
    if byte == b'\\' {
        Taken::Go(State::CharEscape(start, Escape::Backslash), Ended::Nothing)
    } else if is_character_byte(byte) {
        Taken::Go(State::CharHeld(start), Ended::Nothing)
    } else {
        Taken::Fault(reasons::BAD_CHARACTERS, start)
    }
}

fn char_held(start: u64, byte: u8, at: u64) -> Taken
    requires { at < 18446744073709551615 }
    ensures { result ≡ spec.char_held start byte at }
{
    if byte == b'\'' {
        Taken::Go(State::Between(false), found(TokenKind::Char, start, at + 1))
    } else {
        Taken::Fault(reasons::BAD_CHARACTERS, start)
    }
}

fn char_escape(start: u64, progress: Progress, byte: u8, at: u64) -> Taken
    requires { at < 18446744073709551615 }
    ensures { result ≡ spec.char_escape start progress byte at }
{
    match progress {
        Progress::More(escape) => Taken::Go(State::CharEscape(start, escape), Ended::Nothing),
        Progress::Whole => Taken::Go(State::CharHeld(start), Ended::Nothing),
        Progress::Over => char_held(start, byte, at),
        Progress::Wrong => Taken::Fault(reasons::BAD_CHARACTERS, start),
    }
}

fn in_text(start: u64, byte: u8, at: u64) -> Taken
    requires { at < 18446744073709551615 }
    ensures { result ≡ spec.in_text start byte at }
{
    match byte {
        b'"' => Taken::Go(State::Between(false), found(TokenKind::Text, start, at + 1)),
        b'\\' => Taken::Go(State::TextEscape(start, Escape::Backslash), Ended::Nothing),
        b'\n' => Taken::Fault(reasons::BAD_CHARACTERS, start),
        _ => Taken::Go(State::InText(start), Ended::Nothing),
    }
}

fn text_escape(start: u64, progress: Progress, byte: u8, at: u64) -> Taken
    requires { at < 18446744073709551615 }
    ensures { result ≡ spec.text_escape start progress byte at }
{
    match progress {
        Progress::More(escape) => Taken::Go(State::TextEscape(start, escape), Ended::Nothing),
        Progress::Whole => Taken::Go(State::InText(start), Ended::Nothing),
        Progress::Over => in_text(start, byte, at),
        Progress::Wrong => Taken::Fault(reasons::BAD_CHARACTERS, start),
    }
}

fn line_end(end: u64, byte: u8, at: u64) -> u64
    requires { at < 18446744073709551615 }
    ensures { result ≡ spec.line_end end byte at }
{
    if byte == b'\r' { end } else { at + 1 }
}

fn end_directive(start: u64, end: u64, line: &[u8], broken: Option<usize>) -> Taken
    requires within { IfSome broken (λ count. count ≤ length line.now) }
    requires room { start + 1 + length line.now < 18446744073709551616 }
    ensures { result ≡ spec.end_directive start end line.now broken }
{
    let own = match broken {
        Some(count) => &line[..count],
        None => line,
    };
    if !is_directive(own) {
        return Taken::Fault(reasons::BAD_DIRECTIVE, start);
    }
    match broken {
        Some(count) => Taken::Fault(reasons::NO_TOKEN, start + 1 + count as u64),
        None => Taken::Go(
            State::Between(true),
            found(TokenKind::Directive, start, end),
        ),
    }
}

fn in_directive(text: &[u8], start: u64, end: u64, byte: u8, at: u64) -> Taken
    requires order { start < at }
    requires within { at ≤ length text.now }
    requires room { at < 18446744073709551615 }
    ensures { result ≡ spec.in_directive text.now start end byte at }
{
    if byte != b'\n' {
        let end = line_end(end, byte, at);
        return Taken::Go(State::InDirective(start, end), Ended::Nothing);
    }
    let line = &text[start as usize + 1..at as usize];
    end_directive(start, end, line, broken_at(line))
}

fn closing_step(closing: Closing, byte: u8) -> Closing
    ensures { result ≡ spec.closing_step closing byte }
{
    if byte == b'*' {
        return Closing::Starred;
    }
    match closing {
        Closing::Open => Closing::Open,
        Closing::Starred | Closing::Joined => {
            if byte == b'\\' {
                Closing::Continued
            } else {
                Closing::Open
            }
        }
        Closing::Returned if byte == b'\\' => Closing::Continued,
        Closing::Continued | Closing::Returned => continued_step(byte),
    }
}

fn continued_step(byte: u8) -> Closing
    ensures { result ≡ spec.continued_step byte }
{
    match byte {
        b'\n' => Closing::Joined,
        b'\r' => Closing::Returned,
        _ if is_space(byte) => Closing::Continued,
        _ => Closing::Open,
    }
}

fn in_comment(start: u64, closing: Closing, byte: u8, at: u64) -> Taken
    requires { at < 18446744073709551615 }
    ensures { result ≡ spec.in_comment start closing byte at }
{
    match closing {
        Closing::Starred if byte == b'/' => {
            let end = at + 1;
            Taken::Go(State::Between(false), Ended::Comment(Span { start, end }))
        }
        Closing::Joined | Closing::Returned if byte == b'/' => Taken::Fault(
            reasons::COMMENT_WITHOUT_END,
            start,
        ),
        _ => Taken::Go(
            State::InComment(start, closing_step(closing, byte)),
            Ended::Nothing,
        ),
    }
}

fn end_line(start: u64, end: u64, broken: Option<usize>) -> Taken
    requires { IfSome broken (λ count. start + count < 18446744073709551616) }
    ensures { result ≡ spec.end_line start end broken }
{
    match broken {
        Some(count) => Taken::Fault(reasons::NO_TOKEN, start + count as u64),
        None => Taken::Go(State::Between(true), Ended::Comment(Span { start, end })),
    }
}

fn in_line(text: &[u8], start: u64, end: u64, byte: u8, at: u64) -> Taken
    requires order { start ≤ at }
    requires within { at ≤ length text.now }
    requires room { at < 18446744073709551615 }
    ensures { result ≡ spec.in_line text.now start end byte at }
{
    if byte != b'\n' {
        let end = line_end(end, byte, at);
        return Taken::Go(State::InLine(start, end), Ended::Nothing);
    }
    end_line(start, end, broken_at(&text[start as usize..at as usize]))
}

/// Whether the byte leaves the state as it is and ends nothing.
#[inline(always)]
pub(crate) fn stays(state: State, byte: u8) -> bool
    ensures { result ≡ spec.stays state byte }
{
    match state {
        State::Between(_) => byte == b' ',
        State::InWord(_) => is_word_byte(byte),
        State::InText(_) => is_text_byte(byte),
        State::InComment(_, Closing::Open) => byte != b'*',
        _ => false,
    }
}

/// Whether a word begins with the byte.
#[inline(always)]
pub(crate) fn begins_word(state: State, byte: u8) -> bool
    ensures { result ≡ spec.begins_word state byte }
{
    match state {
        State::Between(_) => is_letter(byte),
        _ => false,
    }
}

/// Whether the byte is a mark with which no byte goes on, and begins there.
#[inline(always)]
pub(crate) fn begins_mark(state: State, byte: u8) -> bool
    ensures { result ≡ spec.begins_mark state byte }
{
    match state {
        State::Between(_) => is_whole_mark(byte),
        _ => false,
    }
}

/// What the byte at this place does to the state.
pub(crate) fn step(text: &[u8], state: State, byte: u8, at: u64) -> Taken
    requires order { spec.least state ≤ at }
    requires within { at ≤ length text.now }
    requires room { at < 18446744073709551615 }
    ensures taken { result ≡ spec.step text.now state byte at }
    ensures order { spec.KeepsOrder at result }
{
    match state {
        State::Between(first) => begin(first, Ended::Nothing, byte, at),
        State::InWord(start) => in_word(text, start, byte, at),
        State::InNumber(start, power) => in_number(text, start, power, byte, at),
        State::InMark(start, mark) => in_mark(start, mark, byte, at),
        State::Dots(start) => in_dots(start, byte, at),
        State::CharOpened(start) => char_opened(start, byte),
        State::CharEscape(start, escape) => {
            char_escape(start, escape_step(escape, byte), byte, at)
        }
        State::CharHeld(start) => char_held(start, byte, at),
        State::InText(start) => in_text(start, byte, at),
        State::TextEscape(start, escape) => {
            text_escape(start, escape_step(escape, byte), byte, at)
        }
        State::InDirective(start, end) => in_directive(text, start, end, byte, at),
        State::InComment(start, closing) => in_comment(start, closing, byte, at),
        State::InLine(start, end) => in_line(text, start, end, byte, at),
    }
}

/// What the end of the text does to the state: what a newline would, but that it leaves a comment `/*`
/// without its end.
pub(crate) fn finish(text: &[u8], state: State, at: u64) -> Taken
    requires order { spec.least state ≤ at }
    requires within { at ≤ length text.now }
    requires room { at < 18446744073709551615 }
    ensures taken { result ≡ spec.finish text.now state at }
    ensures order { spec.KeepsOrder at result }
{
    match state {
        State::InComment(start, _) => Taken::Fault(reasons::COMMENT_WITHOUT_END, start),
        other => step(text, other, b'\n', at),
    }
}
