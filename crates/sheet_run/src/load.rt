// Rows and words of a sheet: four bytes each, low byte first.
ghost use Rattle.std.specs.Prelude.{◌≡◌, ◌+◌, ◌*◌, ◌≤◌, length, take};
ghost use Rattle.sheet.specs.Words.{word_at, words_in};

use sheet::Span;

// The word whose four bytes begin at this position.
#[tactic(auto, unfolding(sheet::specs::Words::word_at))]
fn word_at(bytes: &[u8], at: usize) -> u32
    requires { at + 4 ≤ length bytes.now }
    ensures { result ≡ word_at bytes.now at }
{
    u32::from_le_bytes([bytes[at], bytes[at + 1], bytes[at + 2], bytes[at + 3]])
}

// The words of the span, as many as the list holds, copied to its front.
pub(crate) fn load<'a>(bytes: &[u8], span: Span, list: &'a mut [u32]) -> &'a [u32]
    requires { span.at + 4 * span.count ≤ length bytes.now }
    ensures { result.now ≡ take (length list.old) (words_in bytes.now span) }
{
    let m = span.count.min(list.len());
    let words = &mut list[..m];
    for (i, word) in words.iter_mut().enumerate() {
        *word = word_at(bytes, span.at + 4 * i);
    }
    words
}
