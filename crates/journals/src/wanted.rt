// A wanted text: what is said of it leaves what is still wanted, and nothing where it differs.

pub fn say<'a>(wanted: &'a [u8], text: &[u8]) -> Option<&'a [u8]> {
    wanted.strip_prefix(text)
}

// Whether all of it was said, and no more.
pub fn is_said(left: Option<&[u8]>) -> bool {
    left.is_some_and(|left| left.is_empty())
}
