//! Numbers in a base, with the highest digit first and without leading zeros.

ghost use Rattle.std.specs.Prelude.{◌≡◌, ◌≢◌, ℕ, ◌<◌, ◌≤◌, ◌+◌, ◌*◌, ◌^◌, ◌∷◌, List, length, get_or, Some, IsTrue, IsFalse, IfSome, IfNone};
ghost use Rattle.rmm_spec.specs.Text.{glyph, numeral, parts_of};
ghost use Rattle.rmi_codec.specs.Spaced.{parts_behind};

// The hex digit that each byte shows, and 255 where it shows none.
const HEX_DIGITS: [u8; 256] = [
    255, 255, 255, 255, 255, 255, 255, 255, 255, 255, 255, 255, 255, 255, 255, 255, 255, 255, 255,
    255, 255, 255, 255, 255, 255, 255, 255, 255, 255, 255, 255, 255, 255, 255, 255, 255, 255, 255,
    255, 255, 255, 255, 255, 255, 255, 255, 255, 255, 0, 1, 2, 3, 4, 5, 6, 7, 8, 9, 255, 255, 255,
    255, 255, 255, 255, 255, 255, 255, 255, 255, 255, 255, 255, 255, 255, 255, 255, 255, 255, 255,
    255, 255, 255, 255, 255, 255, 255, 255, 255, 255, 255, 255, 255, 255, 255, 255, 255, 10, 11,
    12, 13, 14, 15, 255, 255, 255, 255, 255, 255, 255, 255, 255, 255, 255, 255, 255, 255, 255, 255,
    255, 255, 255, 255, 255, 255, 255, 255, 255, 255, 255, 255, 255, 255, 255, 255, 255, 255, 255,
    255, 255, 255, 255, 255, 255, 255, 255, 255, 255, 255, 255, 255, 255, 255, 255, 255, 255, 255,
    255, 255, 255, 255, 255, 255, 255, 255, 255, 255, 255, 255, 255, 255, 255, 255, 255, 255, 255,
    255, 255, 255, 255, 255, 255, 255, 255, 255, 255, 255, 255, 255, 255, 255, 255, 255, 255, 255,
    255, 255, 255, 255, 255, 255, 255, 255, 255, 255, 255, 255, 255, 255, 255, 255, 255, 255, 255,
    255, 255, 255, 255, 255, 255, 255, 255, 255, 255, 255, 255, 255, 255, 255, 255, 255, 255, 255,
    255, 255, 255, 255, 255, 255, 255, 255, 255, 255, 255, 255, 255, 255, 255, 255, 255, 255, 255,
    255, 255, 255, 255,
];

// The digit of a base that a byte shows, and no less than the base where it shows none. No branch depends on the byte:
// digits can't be foreseen.
#[inline(always)]
pub(crate) fn digit_of(byte: u8, base: u64) -> u64
    requires { base ≤ 16 }
    ensures shown { result < base → glyph result ≡ byte }
    ensures none { base ≤ result → (d : ℕ) → d < base → glyph d ≢ byte }
{
    if base <= 10 {
        return u64::from(u32::from(byte).wrapping_sub(u32::from(b'0')));
    }
    u64::from(HEX_DIGITS[usize::from(byte)])
}

// The number with one digit more, where it is within the limit. Where the limit is small, the product can't pass 64 bits.
#[inline(always)]
fn with_digit(number: u64, base: u64, digit: u64, most: u64) -> Option<u64>
    requires number { number ≤ most }
    requires base { base ≤ 16 }
    requires digit { digit < base }
    ensures some { IfSome result (λ n. n ≡ number * base + digit) }
    ensures within { IfSome result (λ n. n ≤ most) }
    ensures none { IfNone result (most < number * base + digit) }
{
    let longer = if most <= u64::from(u32::MAX) {
        number * base + digit
    } else {
        number.checked_mul(base)?.checked_add(digit)?
    };
    if longer <= most { Some(longer) } else { None }
}

// Whether a part of a line ends here: at a space or with the line.
#[inline(always)]
pub(crate) fn is_end(line: &[u8], end: usize) -> bool
    requires { end ≤ length line.now }
    ensures ended { IsTrue result → end < length line.now → get_or line.now end 0 ≡ 32 }
    ensures inside { IsFalse result → end < length line.now }
    ensures goes_on { IsFalse result → get_or line.now end 0 ≢ 32 }
{
    end == line.len() || line[end] == b' '
}

// The number within the limit that the first part of a line spells, with the part's end.
#[inline(always)]
pub(crate) fn numeral_prefix(line: &[u8], base: u64, most: u64) -> Option<(u64, usize)>
    requires least { 2 ≤ base }
    requires most { base ≤ 16 }
    ensures found { IfSome result (λ p. parts_of line.now ≡ numeral base p.0 ∷ parts_behind p.1 line.now) }
    ensures within { IfSome result (λ p. p.0 ≤ most) }
    ensures inside { IfSome result (λ p. p.1 ≤ length line.now) }
    ensures none { IfNone result ((n : ℕ) (rest : List (List ℕ)) → n ≤ most → parts_of line.now ≢ numeral base n ∷ rest) }
{
    if line.is_empty() {
        return None;
    }
    let first = digit_of(line[0], base);
    if first >= base {
        return None;
    }
    if first > most {
        return None;
    }
    if is_end(line, 1) {
        return Some((first, 1));
    }
    if first == 0 {
        return None;
    }
    longer_prefix(line, base, most, first)
}

// The same where the first part is longer than its first digit, which isn't 0.
#[inline(always)]
fn longer_prefix(line: &[u8], base: u64, most: u64, first: u64) -> Option<(u64, usize)>
    requires least { 2 ≤ base }
    requires most { base ≤ 16 }
    requires some { 0 < length line.now }
    requires first { first ≤ most }
    requires digit { first < base }
    requires positive { 0 < first }
    requires shown { glyph first ≡ get_or line.now 0 0 }
    ensures found { IfSome result (λ p. parts_of line.now ≡ numeral base p.0 ∷ parts_behind p.1 line.now) }
    ensures within { IfSome result (λ p. p.0 ≤ most) }
    ensures inside { IfSome result (λ p. p.1 ≤ length line.now) }
    ensures none { IfNone result ((n : ℕ) (rest : List (List ℕ)) → n ≤ most → parts_of line.now ≢ numeral base n ∷ rest) }
{
    let mut number = first;
    let mut end: usize = 1;
    while end < line.len() {
        let digit = digit_of(line[end], base);
        if digit >= base {
            return if is_end(line, end) {
                Some((number, end))
            } else {
                None
            };
        }
        number = with_digit(number, base, digit, most)?;
        end += 1;
    }
    Some((number, end))
}

// The number of 64 bits that a part spells.
#[inline(always)]
pub(crate) fn numeral_from(part: &[u8], base: u64) -> Option<u64>
    requires least { 2 ≤ base }
    requires most { base ≤ 16 }
    ensures found { IfSome result (λ n. part.now ≡ numeral base n) }
    ensures only { (n : ℕ) → n < 2 ^ 64 → part.now ≡ numeral base n → result ≡ Some n }
{
    let (number, end) = numeral_prefix(part, base, u64::MAX)?;
    if end == part.len() {
        Some(number)
    } else {
        None
    }
}
