// Part 4: the leaders of all syndromes, in a lent list.
ghost use Rattle.leaders.specs.Leaders.{LeadersOf};
ghost use Rattle.leaders.specs.LeadersBy.{LeadersBy};

use crate::build::build;
use answers::Refusal;
use parity::parity_checks;
use words::limits::{MAX_CHECKS, WIDTH};
use words::shape::Matrix;

// The first 2^c entries become the leaders of words of n places by the first c check rows. Answers how many words were tried, or nothing where
// there is no room, and the list is as it was. c stands beside the array as in `parity::syndromes`.
pub fn fill_leaders(checks: &[u32; MAX_CHECKS], n: u32, c: u32, list: &mut [u32]) -> Option<u32>
    ensures { LeadersBy checks.now n c list.old result list.new }
{
    if WIDTH < n as usize || MAX_CHECKS < c as usize {
        return None;
    }
    let size = 1usize << c;
    if list.len() < size {
        return None;
    }
    Some(build(checks, n as usize, c as usize, &mut list[..size]))
}

// Where the leaders stand in the list: the check rows that give their syndromes, and how many words were tried.
#[derive(Drop)]
pub struct Leaders {
    pub checks: [u32; MAX_CHECKS],
    pub tried: u32,
}

// The first 2^(n - k) entries become the leaders by syndrome: causes 1 to 4 and 9.
pub fn leaders_of(matrix: &Matrix, list: &mut [u32]) -> Result<Leaders, Refusal>
    ensures { LeadersOf matrix.now.n matrix.now.k matrix.now.rows.now list.old result list.new }
{
    let checks = parity_checks(matrix)?;
    let tried = fill_leaders(&checks, matrix.n, matrix.n - matrix.k, list).ok_or(
        Refusal::ShortWork,
    )?;
    Ok(Leaders { checks, tried })
}
