// Reads a case: the parts of its line and the numbers in them. Every text has an answer, so that the program
// carries no bounds.

// The text in front of the first such byte, all of it where there is none.
pub fn before(text: &[u8], byte: u8) -> &[u8] {
    match text.iter().position(|b| *b == byte) {
        Some(place) => &text[..place],
        None => text,
    }
}

// The text behind the first such byte, none of it where there is none.
fn behind(text: &[u8], byte: u8) -> &[u8] {
    match text.iter().position(|b| *b == byte) {
        Some(place) => &text[place + 1..],
        None => &[],
    }
}

// The word that a case begins with: the call that it is for.
pub fn call_of(line: &[u8]) -> &[u8] {
    before(line, b' ')
}

// Whether a line is a case: an empty one and one that begins with # are none.
pub fn is_case(line: &[u8]) -> bool {
    !line.is_empty() && !line.starts_with(b"#")
}

// The part of a case behind its name and so many bars.
pub fn part(line: &[u8], which: usize) -> &[u8] {
    let mut rest = behind(line, b':');
    for _ in 0..which {
        rest = behind(rest, b'|');
    }
    before(behind(rest, b' '), b'|')
}

// Whether a byte is part of a number.
fn in_number(byte: u8) -> bool {
    byte == b'-' || byte.is_ascii_digit()
}

// A number with one more figure; what is no figure adds none, nor does one that is too many.
fn with_figure(value: u32, byte: u8) -> u32 {
    if !byte.is_ascii_digit() {
        return value;
    }
    let longer = u64::from(value) * 10 + u64::from(byte - b'0');
    u32::try_from(longer).unwrap_or(value)
}

// The number that a text begins with, without its sign.
fn size_at(text: &[u8]) -> u32 {
    let figures = text.iter().take_while(|byte| in_number(**byte));
    figures.fold(0, |value, byte| with_figure(value, *byte))
}

// The number that a text begins with, or the last one on its side.
fn number_at(text: &[u8]) -> i32 {
    let size = size_at(text);
    if text.starts_with(b"-") {
        return 0i32.saturating_sub_unsigned(size);
    }
    0i32.saturating_add_unsigned(size)
}

// What stands behind the spaces of a part, read as far as a buffer goes. Returns what was read.
fn read_each<'a, T: Copy, F: Fn(&[u8]) -> T>(part: &[u8], out: &'a mut [T], read: F) -> &'a mut [T]
    requires { F.IsAlwaysCallable read }
{
    let mut rest = behind(part, b' ');
    let mut count = 0;
    for place in out.iter_mut() {
        if rest.is_empty() {
            break;
        }
        *place = read(rest);
        rest = behind(rest, b' ');
        count += 1;
    }
    &mut out[..count]
}

// The numbers behind the first word of a part.
pub fn read_numbers<'a>(part: &[u8], numbers: &'a mut [i32]) -> &'a mut [i32] {
    read_each(part, numbers, |word| number_at(word))
}

// The low eight bits of each.
pub fn read_bytes<'a>(part: &[u8], bytes: &'a mut [u8]) -> &'a mut [u8] {
    read_each(part, bytes, |word| (size_at(word) % 256) as u8)
}

// Each without its sign.
pub fn read_sizes<'a>(part: &[u8], sizes: &'a mut [u32]) -> &'a mut [u32] {
    read_each(part, sizes, |word| size_at(word))
}

// The text from the number on in front of a case's first bar that follows a word, by the word's last letter.
fn at_setting(line: &[u8], letter: u8) -> &[u8] {
    behind(behind(part(line, 0), letter), b' ')
}

// That number, 0 if the word is not there.
pub fn setting(line: &[u8], letter: u8) -> i32 {
    number_at(at_setting(line, letter))
}

// The same as a count, without its sign.
pub fn count_setting(line: &[u8], letter: u8) -> usize {
    size_at(at_setting(line, letter)) as usize
}

// The same as a place; below 0 stands for the greatest.
pub fn place_setting(line: &[u8], letter: u8) -> usize {
    if setting(line, letter) < 0 {
        return usize::MAX;
    }
    count_setting(line, letter)
}
