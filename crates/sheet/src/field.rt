// One field of a sheet: a tag, a two-byte length (high byte first), the content.
ghost use Rattle.std.specs.Prelude.{◌≡◌, ◌+◌, ◌≤◌, length};
ghost use Rattle.sheet.specs.Field.{byte_content, words_content, content_of, field_at};

use crate::answer::{Fault, Span};

// The highest tag.
pub(crate) const MAX_TAG: u8 = 5;

// What a tag has: one byte, or words.
#[derive(Clone, Copy)]
pub(crate) enum Content {
    Byte(u8),
    Words(Span),
}

// A field that was read: its tag, its content and where the next field begins.
#[derive(Clone, Copy)]
pub(crate) struct Field {
    pub(crate) tag: u8,
    pub(crate) content: Content,
    pub(crate) next: usize,
}

// A field of one byte.
fn byte_content(bytes: &[u8], from: usize, size: usize) -> Option<Content>
    requires { from + size ≤ length bytes.now }
    ensures { result ≡ byte_content bytes.now from size }
{
    if size != 1 {
        return None;
    }
    Some(Content::Byte(bytes[from]))
}

// A field of words, four bytes each.
fn words_content(from: usize, size: usize) -> Option<Content>
    ensures { result ≡ words_content from size }
{
    if size % 4 != 0 {
        return None;
    }
    Some(Content::Words(Span {
        at: from,
        count: size / 4,
    }))
}

// The content of so many bytes, by its tag; none where they are not that many. A tag stays a number, by which `sheet_in` has the contents, and
// the bytes stay positions, which a span keeps.
#[tactic(auto, unfolding(crate::specs::Field::content_of))]
fn content_of(bytes: &[u8], tag: u8, from: usize, size: usize) -> Option<Content>
    requires { from + size ≤ length bytes.now }
    ensures { result ≡ content_of bytes.now tag from size }
{
    match tag {
        1 | 2 | 4 => byte_content(bytes, from, size),
        3 | 5 => words_content(from, size),
        _ => None,
    }
}

// The field whose tag is at this position, after the last tag.
#[tactic(auto, unfolding(crate::specs::Field::field_at))]
pub(crate) fn field_at(bytes: &[u8], at: usize, last: u8) -> Result<Field, Fault>
    requires { at ≤ length bytes.now }
    ensures { result ≡ field_at bytes.now at last }
{
    let left = bytes.len() - at;
    if left < 3 {
        return Err(Fault::Layout(at));
    }
    let tag = bytes[at];
    if MAX_TAG < tag {
        return Err(Fault::Tag(at));
    }
    if tag <= last {
        return Err(Fault::Tag(at));
    }
    let size = usize::from(u16::from_be_bytes([bytes[at + 1], bytes[at + 2]]));
    if left - 3 < size {
        return Err(Fault::Layout(at));
    }
    let content = content_of(bytes, tag, at + 3, size).ok_or(Fault::Layout(at))?;
    Ok(Field {
        tag,
        content,
        next: at + 3 + size,
    })
}
