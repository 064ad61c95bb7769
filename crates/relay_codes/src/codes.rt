// Operations on any generator matrix.
ghost use Rattle.std.specs.Prelude.{length};
ghost use Rattle.coding.specs.Lists.{zeros};
ghost use Rattle.words.specs.Limits.{max_rows, max_checks, weight_slots};
ghost use Rattle.words.specs.Accepted.{matrix_answer};
ghost use Rattle.encoder.specs.Encoded.{encode_answer, Encoded};
ghost use Rattle.encoder.specs.MessagesRead.{message_answer, MessagesRead};
ghost use Rattle.weights.specs.Description.{DescriptionOf};
ghost use Rattle.leaders.specs.Leaders.{leaders_answer, LeadersOf};
ghost use Rattle.decoder.specs.Causes.{decode_answer};
ghost use Rattle.decoder.specs.Decoded.{Decoded};
ghost use Rattle.telling.specs.Reading.{reading_of};
ghost use Rattle.telling.specs.Told.{Told, Wrote};

use decoder::{Lent, decode};
use encoder::{encode, message};
use judging::Batch;
use leaders::{Leaders, leaders_of};
use telling::{reading_of, tell};
use weights::{Description, Weights, describe};
use words::limits::{MAX_CHECKS, MAX_ROWS, WEIGHT_SLOTS};
use words::shape::Matrix;

// Writes what a matrix's code is: its reduced rows, check rows, weight counts, minimum distance and lightest codeword.
#[unsafe(no_mangle)]
pub extern "C" fn relay_describe(
    n: u32,
    k: u32,
    rows: &[u32],
    reduced: &mut [u32; MAX_ROWS],
    checks: &mut [u32; MAX_CHECKS],
    counts: &mut [u32; WEIGHT_SLOTS],
    dmin: &mut u32,
    lightest: &mut u32,
    value: &mut usize,
) -> u32
    ensures { Told
        (Wrote (DescriptionOf n k rows.now)
        (record {
          rows = zeros max_rows;
          checks = zeros max_checks;
          weights = record { dmin = 0; counts = zeros weight_slots; lightest = 0 };
        })
        (record {
          rows = reduced.new;
          checks = checks.new;
          weights = record { dmin = dmin.new; counts = counts.new; lightest = lightest.new };
        }))
        (matrix_answer n k rows.now)
        result
        value.new }
{
    let matrix = Matrix { n, k, rows };
    let none = Description {
        rows: [0u32; MAX_ROWS],
        checks: [0u32; MAX_CHECKS],
        weights: Weights {
            dmin: 0,
            counts: [0u32; WEIGHT_SLOTS],
            lightest: 0,
        },
    };
    let (number, d) = tell(describe(&matrix), none, value);
    let first = d.rows;
    let second = d.checks;
    let third = d.weights.counts;
    *reduced = first;
    *checks = second;
    *counts = third;
    *dmin = d.weights.dmin;
    *lightest = d.weights.lightest;
    number
}

// Writes the leaders of all syndromes, the check rows that give a word's syndrome, and how many words were tried.
#[unsafe(no_mangle)]
pub extern "C" fn relay_leaders(
    n: u32,
    k: u32,
    rows: &[u32],
    leaders: &mut [u32],
    checks: &mut [u32; MAX_CHECKS],
    tried: &mut u32,
    value: &mut usize,
) -> u32
    ensures { Told
        (Wrote (λ r. LeadersOf n k rows.now leaders.old r leaders.new)
        (record { checks = zeros max_checks; tried = 0 })
        (record { checks = checks.new; tried = tried.new }))
        (leaders_answer n k rows.now (length leaders.old))
        result
        value.new }
{
    let matrix = Matrix { n, k, rows };
    let none = Leaders {
        checks: [0u32; MAX_CHECKS],
        tried: 0,
    };
    let (number, l) = tell(leaders_of(&matrix, leaders), none, value);
    let first = l.checks;
    *checks = first;
    *tried = l.tried;
    number
}

// Writes the codeword of each message of k places.
#[unsafe(no_mangle)]
pub extern "C" fn relay_encode(
    n: u32,
    k: u32,
    rows: &[u32],
    messages: &[u32],
    out: &mut [u32],
    value: &mut usize,
) -> u32
    ensures { Told
        (λ a. Encoded n k rows.now messages.now out.old a out.new)
        (encode_answer n k rows.now messages.now (length out.old))
        result
        value.new }
{
    let matrix = Matrix { n, k, rows };
    let r = encode(&matrix, messages, out);
    tell(r, (), value).0
}

// Writes the message of each codeword.
#[unsafe(no_mangle)]
pub extern "C" fn relay_message(
    n: u32,
    k: u32,
    rows: &[u32],
    words: &[u32],
    out: &mut [u32],
    value: &mut usize,
) -> u32
    ensures { Told
        (λ a. MessagesRead n k rows.now words.now out.old a out.new)
        (message_answer n k rows.now words.now (length out.old))
        result
        value.new }
{
    let matrix = Matrix { n, k, rows };
    let r = message(&matrix, words, out);
    tell(r, (), value).0
}

// Decodes each word, as the nearest codeword where `within` is 0, else within the radius; the working list becomes the leaders.
#[unsafe(no_mangle)]
pub extern "C" fn relay_decode(
    n: u32,
    k: u32,
    rows: &[u32],
    within: u32,
    radius: u32,
    words: &[u32],
    out: &mut [u32],
    counts: &mut [u8],
    work: &mut [u32],
    value: &mut usize,
) -> u32
    ensures { Told
        (λ a. Decoded
        (record { n = n; k = k; rows = rows.now; reading = reading_of within radius; words = words.now })
        (record { codewords = out.old; counts = counts.old; work = work.old })
        a
        (record { codewords = out.new; counts = counts.new; work = work.new }))
        (decode_answer n k rows.now (reading_of within radius) words.now
        (length out.old) (length counts.old) (length work.old))
        result
        value.new }
{
    let batch = Batch {
        matrix: Matrix { n, k, rows },
        reading: reading_of(within, radius),
        words,
    };
    let mut lent = Lent {
        codewords: out,
        counts,
        work,
    };
    let r = decode(&batch, &mut lent);
    tell(r, (), value).0
}
