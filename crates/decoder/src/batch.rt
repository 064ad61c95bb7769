// Decode: a batch of received words, read as the nearest codewords or within a radius.
ghost use Rattle.std.specs.Prelude.{◌≡◌, true, map, ◌++◌, ℕ, ◌≤◌, ◌<◌, length, get_or, take, drop, IfOk, Some};
ghost use Rattle.coding.specs.Check.{syndrome};
ghost use Rattle.coding.specs.Weight.{dmin};
ghost use Rattle.answers.specs.Refusal.{answer_of};
ghost use Rattle.decoder.specs.Given.{batch_of, lists_of, SameLists};
ghost use Rattle.decoder.specs.Decoded.{Decoded};
ghost use Rattle.decoder.specs.Inner.SlotsBy.{words_with, counts_with, word_by, count_by};

use answers::Refusal;
use judging::{Batch, known_past_8};
use leaders::fill_leaders;
use outcomes::outcome_of;
use parity::syndromes;
use words::limits::MAX_CHECKS;

// The lists lent to Decode, three as in C and in document 01: for the codewords, for the counts, and for the leaders, with which it works.
#[derive(Drop)]
pub struct Lent<'a> {
    pub codewords: &'a mut [u32],
    pub counts: &'a mut [u8],
    pub work: &'a mut [u32],
}

// Decodes the words: codewords and counts into the first two lists, the leaders into the third.
pub fn decode(batch: &Batch, lent: &mut Lent) -> Result<(), Refusal>
    ensures decoded { Decoded (batch_of batch.now) (lists_of lent.old) result (lists_of lent.new) }
    ensures same_lists { SameLists lent.old lent.new }
{
    decode_by(false, batch, lent)?;
    Ok(())
}

// The same, and answers the minimum distance, which is looked for once, in either reading.
pub fn decode_measured(batch: &Batch, lent: &mut Lent) -> Result<u32, Refusal>
    ensures decoded { Decoded (batch_of batch.now) (lists_of lent.old) (answer_of result) (lists_of lent.new) }
    ensures dmin_value { IfOk result (λ d. d ≡ dmin batch.now.matrix.rows.now) }
    ensures same_lists { SameLists lent.old lent.new }
{
    Ok(decode_by(true, batch, lent)?.unwrap())
}

// Each syndrome becomes its leader.
fn look_up(leaders: &[u32], list: &mut [u32])
    requires { (i : ℕ) → i < length list.old → get_or list.old i 0 < length leaders.now }
    ensures { list.new ≡ map (λ s. get_or leaders.now s 0) list.old }
{
    for x in list.iter_mut() {
        *x = leaders[*x as usize];
    }
}

// Each leader becomes the codeword of the word beside it, and its count is written: two parts of lists, cut to the words, and no `Lent`.
// By index: after an adapter of `iter_mut`, as a zip of the two lists, a proof knows nothing of what they hold.
fn correct(batch: &Batch, out: &mut [u32], counts: &mut [u8])
    requires { (length out.old ≡ length batch.now.words.now) × (length counts.old ≡ length batch.now.words.now) }
    ensures codewords { out.new ≡ words_with batch.now.reading batch.now.words.now out.old }
    ensures counts { counts.new ≡ counts_with batch.now.reading batch.now.words.now out.old }
{
    let reading = batch.reading;
    for (i, &w) in batch.words.iter().enumerate() {
        let o = outcome_of(reading, w, out[i]);
        out[i] = o.word(w);
        counts[i] = o.count();
    }
}

// The same from syndromes, in parts of lists as above.
fn answer_words(batch: &Batch, leaders: &[u32], out: &mut [u32], counts: &mut [u8])
    requires lengths { (length out.old ≡ length batch.now.words.now) × (length counts.old ≡ length batch.now.words.now) }
    requires syndromes { (i : ℕ) → i < length out.old → get_or out.old i 0 < length leaders.now }
    ensures codewords { out.new ≡ words_with batch.now.reading batch.now.words.now (map (λ s. get_or leaders.now s 0) out.old) }
    ensures counts { counts.new ≡ counts_with batch.now.reading batch.now.words.now (map (λ s. get_or leaders.now s 0) out.old) }
{
    look_up(leaders, out);
    correct(batch, out, counts);
}

// Each word is decoded with the leader of its syndrome by the first c check rows; the later slots keep their values. The syndromes stand in
// the list of the codewords first. c stands beside the array as in `parity::syndromes`; with a `Lent` the
// clauses would say besides that the third list stays as it is.
fn decode_words(
    batch: &Batch,
    checks: &[u32; MAX_CHECKS],
    c: usize,
    leaders: &[u32],
    out: &mut [u32],
    counts: &mut [u8],
)
    requires room { (length batch.now.words.now ≤ length out.old) × (length batch.now.words.now ≤ length counts.old) }
    requires syndromes { (i : ℕ) → i < length batch.now.words.now
        → syndrome (take c checks.now) (get_or batch.now.words.now i 0) < length leaders.now }
    ensures codewords { out.new
        ≡ map (word_by batch.now.reading leaders.now (take c checks.now)) batch.now.words.now
        ++ drop (length batch.now.words.now) out.old }
    ensures counts { counts.new
        ≡ map (count_by batch.now.reading leaders.now (take c checks.now)) batch.now.words.now
        ++ drop (length batch.now.words.now) counts.old }
{
    let m = batch.words.len();
    syndromes(checks, c, batch.words, out);
    answer_words(batch, leaders, &mut out[..m], &mut counts[..m]);
}

// Decode, with the minimum distance where it is measured: a bool, since the reading, a value, decides too.
fn decode_by(measure: bool, batch: &Batch, lent: &mut Lent) -> Result<Option<u32>, Refusal>
    ensures decoded { Decoded (batch_of batch.now) (lists_of lent.old) (answer_of result) (lists_of lent.new) }
    ensures dmin_value { measure ≡ true → IfOk result (λ d. d ≡ Some (dmin batch.now.matrix.rows.now)) }
    ensures same_lists { SameLists lent.old lent.new }
{
    let known = known_past_8(measure, batch, lent.codewords.len(), lent.counts.len())?;
    let c = batch.matrix.n - batch.matrix.k;
    let work = &mut *lent.work;
    fill_leaders(&known.checks, batch.matrix.n, c, work).ok_or(Refusal::ShortWork)?;
    decode_words(
        batch,
        &known.checks,
        c as usize,
        work,
        lent.codewords,
        lent.counts,
    );
    Ok(known.dmin)
}
