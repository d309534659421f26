// Numbers as stories write them: digits, with a comma wherever it helps.

/// The number that is written; none where there is another character, no digit, or too great a number.
pub fn number(text: &str) -> Option<u64> {
    let mut found = None;
    for byte in text.bytes() {
        match byte {
            b'0'..=b'9' => {
                let digit = u64::from(byte - b'0');
                let before = found.unwrap_or(0u64);
                found = Some(before.checked_mul(10)?.checked_add(digit)?);
            }
            b',' => {}
            _ => return None,
        }
    }
    found
}
