// The list of the leaders is filled: the words are tried by rising weight, of equal weight by rising number, with the syndrome kept along by one
// column a step; a word takes the entry of its syndrome where that is blank, and the build ends with the word that fills the last one.
ghost use Rattle.std.specs.Prelude.{◌≡◌, ℕ, suc, ◌+◌, ◌<◌, ◌≤◌, ◌^◌, length, take};
ghost use Rattle.coding.specs.Matrix.{encode};
ghost use Rattle.coding.specs.Order.{words, order, fills, blanks};
ghost use Rattle.coding.specs.Tries.{tried};
ghost use Rattle.words.specs.Limits.{width};
ghost use Rattle.leaders.specs.LeadersBy.{filled_by, tried_by};
ghost use Rattle.leaders.specs.Inner.Built.{TryingIn, TriedIn};

use parity::columns;
use words::limits::{MAX_CHECKS, WIDTH};

// The entry of a syndrome that has no leader yet: in the list, which C lends, an entry is a number and no Option.
const BLANK: u32 = u32::MAX;

// The list that is filled, the columns of the check rows, and how many entries are blank.
#[derive(Drop)]
pub(crate) struct Filling<'a> {
    pub list: &'a mut [u32],
    pub cols: [u32; WIDTH],
    pub blank: u32,
}

impl Filling<'_> {
    // The words prefix + 2^p for the places p below m, in rising order, until no entry is blank. Answers how many it tried.
    fn units(&mut self, m: usize, prefix: u32, s: u32) -> usize
        requires { TryingIn self.old m 1 prefix s }
        ensures { TriedIn self.old m 1 prefix self.new result }
    {
        for p in 0..m {
            let x = (s ^ self.cols[p]) as usize;
            if self.list[x] == BLANK {
                self.list[x] = prefix + (1u32 << p);
                self.blank -= 1;
                if self.blank == 0 {
                    return p + 1;
                }
            }
        }
        m
    }

    // The words prefix + 2^p + 2^q for the places q below p below m, in rising order, until no entry is blank; answers how many it tried.
    // A loop of its own beside that of `words`: with a call for each p the build takes 1.4 times the instructions, and misses its goal.
    fn pairs(&mut self, m: usize, prefix: u32, s: u32) -> usize
        requires { TryingIn self.old m 2 prefix s }
        ensures { TriedIn self.old m 2 prefix self.new result }
    {
        let mut tried: usize = 0;
        for p in 1..m {
            tried += self.units(p, prefix + (1u32 << p), s ^ self.cols[p]);
            if self.blank == 0 {
                return tried;
            }
        }
        tried
    }

    // The words of m places and weight t, in rising order, with the prefix added, until no entry is blank: those whose highest place is p, for
    // each p in turn. Answers how many it tried.
    fn words(&mut self, m: usize, t: usize, prefix: u32, s: u32) -> usize
        requires { TryingIn self.old m t prefix s }
        ensures { TriedIn self.old m t prefix self.new result }
    {
        // The ends of the recursion.
        if t == 1 {
            return self.units(m, prefix, s);
        }
        if t == 2 {
            return self.pairs(m, prefix, s);
        }
        let mut tried: usize = 0;
        for p in t - 1..m {
            tried += self.words(p, t - 1, prefix + (1u32 << p), s ^ self.cols[p]);
            if self.blank == 0 {
                return tried;
            }
        }
        tried
    }
}

// The list of the leaders: the words of n places and weight up to c are tried until no entry is blank. Answers how many were. n, a width, and c are what
// the columns, which have an entry for each place of a machine word, do not tell.
fn fill_list(list: &mut [u32], cols: [u32; WIDTH], n: usize, c: usize) -> u32
    requires cols_len { (length cols ≡ width) × (n ≤ width) × (c < width) × (0 < length list.old) × (length list.old < 2 ^ 32) }
    requires by_index { (w : ℕ) → encode cols w < length list.old }
    ensures list_after { list.new ≡ fills (encode cols) (blanks (length list.old)) (order n (suc c)) }
    ensures value { result ≡ tried (encode cols) (blanks (length list.old)) (order n (suc c)) }
{
    list.fill(BLANK);
    list[0] = 0;
    let blank = (list.len() - 1) as u32;
    let mut filling = Filling { list, cols, blank };
    let mut tried: usize = 1;
    for t in 1..c + 1 {
        if filling.blank == 0 {
            break;
        }
        tried += filling.words(n, t, 0, 0);
    }
    tried as u32
}

// The list that the words of n places and weight up to c fill, by the first c check rows, and how many of them were tried. c stands beside the
// array as in `parity::syndromes`.
pub(crate) fn build(checks: &[u32; MAX_CHECKS], n: usize, c: usize, list: &mut [u32]) -> u32
    requires { (n ≤ width) × (c < width) × (length list.old ≡ 2 ^ c) }
    ensures list_after { list.new ≡ filled_by (take c checks.now) n c }
    ensures value { result ≡ tried_by (take c checks.now) n c }
{
    fill_list(list, columns(checks, n, c), n, c)
}
