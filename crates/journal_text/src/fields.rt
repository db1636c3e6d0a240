//! The fields of a line, read from left to right.

ghost use Rattle.std.specs.List.{position_or_len};
ghost use Rattle.std.specs.Prelude.{◌==◌, ◌≡◌, ◌<◌, ◌≤◌, length};
ghost use Rattle.std.specs.Option.{option_map};
ghost use Rattle.journal_text.specs.Fields.{is_blank, gap_len, word_len, field_at, number_of, ended, u64_at, u32_at};
ghost use Rattle.journal_text.specs.Fields.{one_of, two_of, three_of};

fn blank(byte: u8) -> bool
    ensures { result ≡ is_blank byte }
{
    byte == b' ' || byte == b'\t'
}

/// Where the byte stands first, or the length where it doesn't.
pub fn find_byte(bytes: &[u8], sought: u8) -> usize
    ensures value { result ≡ position_or_len (λ b. b == sought) bytes.now }
    ensures within { result ≤ length bytes.now }
{
    for (i, byte) in bytes.iter().enumerate() {
        if *byte == sought {
            return i;
        }
    }
    bytes.len()
}

/// How long the word at the front is.
#[tactic(auto, unfolding(crate::specs::Fields::word_len))]
pub fn word_length(bytes: &[u8]) -> usize
    ensures value { result ≡ word_len bytes.now }
    ensures within { result ≤ length bytes.now }
{
    for (i, byte) in bytes.iter().enumerate() {
        if blank(*byte) {
            return i;
        }
    }
    bytes.len()
}

/// How many blanks stand at the front.
#[tactic(auto, unfolding(crate::specs::Fields::gap_len))]
pub fn gap_length(bytes: &[u8]) -> usize
    ensures value { result ≡ gap_len bytes.now }
    ensures within { result ≤ length bytes.now }
{
    for (i, byte) in bytes.iter().enumerate() {
        if !blank(*byte) {
            return i;
        }
    }
    bytes.len()
}

/// The next word, behind blanks, and what stands behind it.
#[tactic(auto, unfolding(crate::specs::Fields::field_at))]
pub fn field(bytes: &[u8]) -> Option<(&[u8], &[u8])>
    ensures { option_map (λ x. (x.0.now, x.1.now)) result ≡ field_at bytes.now }
{
    let gap = gap_length(bytes);
    if gap == 0 {
        return None;
    }
    let rest = &bytes[gap..];
    Some(rest.split_at(word_length(rest)))
}

/// The number that the word spells, in 1 to 20 digits, with leading zeros or not.
#[tactic(auto, unfolding(crate::specs::Fields::number_of))]
pub fn number(word: &[u8]) -> Option<u64>
    ensures { result ≡ number_of word.now }
{
    if word.is_empty() || word.len() > 20 {
        return None;
    }
    let mut number = 0u64;
    for byte in word {
        if !byte.is_ascii_digit() {
            return None;
        }
        number = number
            .checked_mul(10)?
            .checked_add(u64::from(*byte - b'0'))?;
    }
    Some(number)
}

/// A value where nothing stands behind it.
pub fn only<T: Copy>(value: T, rest: &[u8]) -> Option<T>
    ensures { result ≡ ended value rest.now }
{
    if rest.is_empty() { Some(value) } else { None }
}

/// The number in the next field, and what stands behind it.
#[tactic(auto, unfolding(crate::specs::Fields::u64_at))]
pub fn long_number(bytes: &[u8]) -> Option<(u64, &[u8])>
    ensures { option_map (λ x. (x.0, x.1.now)) result ≡ u64_at bytes.now }
{
    let (word, rest) = field(bytes)?;
    let n = number(word)?;
    Some((n, rest))
}

/// The number of 32 bits in the next field, and what stands behind it.
#[tactic(auto, unfolding(crate::specs::Fields::u32_at))]
pub fn short_number(bytes: &[u8]) -> Option<(u32, &[u8])>
    ensures { option_map (λ x. (x.0, x.1.now)) result ≡ u32_at bytes.now }
{
    let (n, rest) = long_number(bytes)?;
    if n > u64::from(u32::MAX) {
        return None;
    }
    Some((n as u32, rest))
}

/// One number, and nothing behind it.
#[tactic(auto, unfolding(crate::specs::Fields::one_of))]
pub fn one(bytes: &[u8]) -> Option<u64>
    ensures { result ≡ one_of bytes.now }
{
    let (n, rest) = long_number(bytes)?;
    only(n, rest)
}

/// Two numbers, and nothing behind them.
#[tactic(auto, unfolding(crate::specs::Fields::two_of))]
pub fn two(bytes: &[u8]) -> Option<(u32, u64)>
    ensures { result ≡ two_of bytes.now }
{
    let (t, rest) = short_number(bytes)?;
    let (m, rest) = long_number(rest)?;
    only((t, m), rest)
}

/// Three numbers, and nothing behind them.
#[tactic(auto, unfolding(crate::specs::Fields::three_of))]
pub fn three(bytes: &[u8]) -> Option<(u32, u64, u32)>
    ensures { result ≡ three_of bytes.now }
{
    let (t, rest) = short_number(bytes)?;
    let (m, rest) = long_number(rest)?;
    let (c, rest) = short_number(rest)?;
    only((t, m, c), rest)
}
