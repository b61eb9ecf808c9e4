//! Parts of a document.

/// Returns the string after an offset.
pub(crate) fn tail(text: &str, at: usize) -> &str {
    text.get(at..).unwrap_or("")
}

/// Returns the offset of a string at the end of a document.
pub(crate) fn offset_of(document: &str, rest: &str) -> usize {
    document.len().saturating_sub(rest.len())
}
