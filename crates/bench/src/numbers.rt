// The words of a line, read as numbers.
ghost use Rattle.std.specs.Prelude.{◌<◌, IfOk};

use crate::complaints::Complaint;
use std::alloc::Global;
use std::num::TryFromIntError;
use std::str::SplitWhitespace;

// The next word of the line.
pub(crate) fn word<'a>(words: &mut SplitWhitespace<'a>) -> Result<&'a str, Complaint> {
    words.next().ok_or(Complaint::MissingArgument)
}

// Nothing more stands on the line.
pub(crate) fn end(words: &mut SplitWhitespace<'_>) -> Result<(), Complaint> {
    words
        .next()
        .map_or(Ok(()), |_| Err(Complaint::ExtraArgument))
}

// A word as a number that fits its type: decimal, or hexadecimal after 0x, without a sign.
pub(crate) fn number_of<T: TryFrom<u32, Error = TryFromIntError>>(
    text: &str,
) -> Result<T, Complaint> {
    let (digits, radix) = match text.strip_prefix("0x") {
        Some(hexadecimal) => (hexadecimal, 16),
        None => (text, 10),
    };
    if digits.starts_with('+') {
        return Err(Complaint::BadNumber);
    }
    Ok(T::try_from(u32::from_str_radix(digits, radix)?)?)
}

// The next word as a number that fits its type.
pub(crate) fn number<T: TryFrom<u32, Error = TryFromIntError>>(
    words: &mut SplitWhitespace<'_>,
) -> Result<T, Complaint> {
    number_of(word(words)?)
}

fn nibble(digit: u8) -> Result<u8, Complaint>
    ensures { IfOk result (λ n. n < 16) }
{
    char::from(digit)
        .to_digit(16)
        .map(|value| value as u8)
        .ok_or(Complaint::BadBytes)
}

// The rest of the line as bytes: pairs of hexadecimal digits in any number of words.
pub(crate) fn bytes(heap: Global, words: &mut SplitWhitespace<'_>) -> Result<Vec<u8>, Complaint> {
    let mut bytes = Vec::new(heap);
    for word in words {
        for pair in word.as_bytes().chunks(2) {
            let [high, low] = pair else {
                return Err(Complaint::BadBytes);
            };
            bytes.push(nibble(*high)? * 16 + nibble(*low)?)?;
        }
    }
    Ok(bytes)
}
