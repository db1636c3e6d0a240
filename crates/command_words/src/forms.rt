// Whether words have a reading, by the forms that they may have. It takes no memory, so that words without a reading
// are refused however short memory is.
ghost use Rattle.std.specs.Prelude.{◌≡◌, is_some, map, option_map, string_bytes};
ghost use Rattle.std.specs.Char.{is_ascii_digit};
ghost use Rattle.std.specs.List.{list_all};
ghost use Rattle.std.specs.Str.{bytes_eq};
ghost use Rattle.command_words.specs.Forms.{may_follow, workers_in};
ghost use Rattle.command_words.specs.Words.{behind, is_number, reading_of};

/// The most workers that words may ask for.
const MOST_WORKERS: u32 = 16;

/// The most digits of a number.
const DIGITS_LIMIT: usize = 10;

// Which options stood before.
#[derive(Clone, Copy)]
pub struct Seen {
    workers: bool,
    trace: bool,
    plain: bool,
}

const NOTHING: Seen = Seen {
    workers: false,
    trace: false,
    plain: false,
};

/// Whether the words have a reading.
pub fn have_reading(words: &[String]) -> bool
    ensures { result ≡ is_some (reading_of words.now) }
{
    let Some((word, rest)) = words.split_first() else {
        return false;
    };
    if is_word(word, "run") {
        return may_follow(rest, NOTHING);
    }
    rest.is_empty() && (is_word(word, "plan") || is_word(word, "check"))
}

// Whether the words are options of `run` that may stand behind those that were seen.
fn may_follow(words: &[String], seen: Seen) -> bool
    ensures { result ≡ may_follow seen (map string_bytes words.now) }
{
    let Some((word, rest)) = words.split_first() else {
        return true;
    };
    if is_word(word, "--trace") {
        return !seen.trace
            && may_follow(
                rest,
                Seen {
                    trace: true,
                    ..seen
                },
            );
    }
    if is_word(word, "--plain") {
        return !seen.plain
            && may_follow(
                rest,
                Seen {
                    plain: true,
                    ..seen
                },
            );
    }
    match workers_in(word, rest) {
        Some((number, rest)) => {
            !seen.workers
                && is_number(number)
                && may_follow(
                    rest,
                    Seen {
                        workers: true,
                        ..seen
                    },
                )
        }
        None => false,
    }
}

// What stands in the place of the number of workers, and the words behind it.
fn workers_in<'a>(word: &'a String, rest: &'a [String]) -> Option<(&'a str, &'a [String])>
    ensures { option_map (λ p. (p.0.now, map string_bytes p.1.now)) result
        ≡ workers_in (string_bytes word.now) (map string_bytes rest.now) }
{
    match rest {
        [number, rest @ ..] if is_word(word, "--workers") => Some((number.as_str(), rest)),
        _ => behind("--workers=", word.as_str()).map(|number| (number, rest)),
    }
}

// Whether a text is a number of workers: 1 to 10 decimal digits, which write a number from 1 to 16.
fn is_number(text: &str) -> bool
    ensures { result ≡ is_number text.now }
{
    if text.len() > DIGITS_LIMIT {
        return false;
    }
    if !are_digits(text.as_bytes()) {
        return false;
    }
    match text.parse::<u32>() {
        Ok(number) => 1 <= number && number <= MOST_WORKERS,
        Err(_) => false,
    }
}

fn are_digits(bytes: &[u8]) -> bool
    ensures { result ≡ list_all is_ascii_digit bytes.now }
{
    bytes.iter().all(|byte| byte.is_ascii_digit())
}

// What follows this front of a text.
fn behind<'a>(front: &str, text: &'a str) -> Option<&'a str>
    ensures { option_map (λ rest. rest.now) result ≡ behind front.now text.now }
{
    text.strip_prefix(front)
}

fn is_word(word: &String, name: &str) -> bool
    ensures { result ≡ bytes_eq (string_bytes word.now) name.now }
{
    word.as_str() == name
}
