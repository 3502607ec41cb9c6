//! Parts of texts.

/// Returns true if a text has a part.
pub fn has(text: &[u8], part: &[u8]) -> bool {
    text.windows(part.len().max(1)).any(|bytes| bytes == part)
}
