ghost use Rattle.std.specs.Prelude.{◌≡◌, ◌<◌, [], ◌∷◌, length, MatchOption, IfSome};
ghost use Rattle.handoff_data.specs.Line.{IsLine};
ghost use Rattle.task_script.specs.Lines.{input_lines, without_returns, skip_blanks, words};

use memchr::{memchr, memchr2};

// The first line of the bytes, and the bytes after it.
pub fn next_line(bytes: &[u8]) -> Option<(&[u8], &[u8])>
    ensures lines { MatchOption result (bytes.now ≡ []) (λ x. input_lines bytes.now ≡ x.0.now ∷ input_lines x.1.now) }
    ensures line { IfSome result (λ x. IsLine x.0.now) }
    ensures shorter { IfSome result (λ x. length x.1.now < length bytes.now) }
{
    if bytes.is_empty() {
        return None;
    }
    match memchr(b'\n', bytes) {
        Some(end) => Some((&bytes[..end], &bytes[end + 1..])),
        None => Some((bytes, &bytes[bytes.len()..])),
    }
}

// The line without the carriage returns at its end.
pub fn without_returns(line: &[u8]) -> &[u8]
    ensures value { result.now ≡ without_returns line.now }
    ensures line { IsLine line.now → IsLine result.now }
{
    let mut line = line;
    while let Some((last, front)) = line.split_last() {
        if *last != b'\r' {
            return line;
        }
        line = front;
    }
    line
}

// The line from its first byte on that is neither a space nor a tab.
pub fn skip_blanks(line: &[u8]) -> &[u8]
    ensures value { result.now ≡ skip_blanks line.now }
    ensures line { IsLine line.now → IsLine result.now }
{
    let mut line = line;
    while let [b' ' | b'\t', rest @ ..] = line {
        line = rest;
    }
    line
}

// The first word of a line, and what follows it.
pub fn next_word(line: &[u8]) -> Option<(&[u8], &[u8])>
    ensures words { MatchOption result (words line.now ≡ []) (λ x. words line.now ≡ x.0.now ∷ words x.1.now) }
    ensures line { IsLine line.now → IfSome result (λ x. IsLine x.0.now × IsLine x.1.now) }
{
    let line = skip_blanks(line);
    if line.is_empty() {
        return None;
    }
    match memchr2(b' ', b'\t', line) {
        Some(end) => Some((&line[..end], &line[end + 1..])),
        None => Some((line, &line[line.len()..])),
    }
}
