// The sheet reader: bytes to a sheet or a refusal.
ghost use Rattle.std.specs.Prelude.{◌≡◌, length};
ghost use Rattle.sheet.specs.Sheet.{reading_of, sheet_in};
ghost use Rattle.sheet.specs.SheetRead.{SheetRead};

use crate::answer::{Fault, Sheet};
use crate::field::{Content, Field, field_at};
use outcomes::Reading;

// The longest sheet.
pub const MAX_SHEET: usize = 4096;

// One entry for each tag, from 0.
const TAGS: usize = 6;

// No tag 4 means nearest.
fn reading_of(radius: Option<Content>) -> Reading
    ensures { result ≡ reading_of radius }
{
    match radius {
        Some(Content::Byte(r)) => Reading::Within(u32::from(r)),
        _ => Reading::Nearest,
    }
}

// The sheet of these contents, entry t being that of tag t; a missing tag is refused at the sheet's length.
fn sheet_in(contents: [Option<Content>; TAGS], end: usize) -> Result<Sheet, Fault>
    requires { length contents ≡ 6 }
    ensures { result ≡ sheet_in contents end }
{
    let [
        _,
        Some(Content::Byte(n)),
        Some(Content::Byte(k)),
        Some(Content::Words(rows)),
        radius,
        Some(Content::Words(words)),
    ] = contents
    else {
        return Err(Fault::Tag(end));
    };
    Ok(Sheet {
        n: u32::from(n),
        k: u32::from(k),
        rows,
        reading: reading_of(radius),
        words,
    })
}

// Reads a sheet.
pub fn read(bytes: &[u8]) -> Result<Sheet, Fault>
    ensures { SheetRead bytes.now result }
{
    if MAX_SHEET < bytes.len() {
        return Err(Fault::Layout(MAX_SHEET));
    }
    let mut contents = [None; TAGS];
    let mut at: usize = 0;
    let mut last: u8 = 0;
    // Each field says where the next begins: no walk over a range.
    while at < bytes.len() {
        let answer = field_at(bytes, at, last);
        let Ok(Field { tag, content, next }) = answer else {
            return Err(answer.unwrap_err());
        };
        contents[usize::from(tag)] = Some(content);
        at = next;
        last = tag;
    }
    sheet_in(contents, bytes.len())
}
