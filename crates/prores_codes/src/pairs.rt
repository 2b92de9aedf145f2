ghost use Rattle.std.specs.Prelude.{◌≡◌, ◌+◌, ◌*◌, ◌%◌, ◌^◌, ◌<◌, ◌≤◌, slice_index};
ghost use Rattle.prores_codes.specs.Choices.{run_parameters, level_parameters};
ghost use Rattle.prores_codes.specs.Pairs.{IsPairRow, IsPair, ArePairs};
ghost use Rattle.prores_codes.specs.inner.Forms.{IsForm};

use crate::choices::{level_code, run_code};
use crate::classes::{FIRST_RUNS, FIRST_SIZES, level_class, run_class};
use crate::forms::{Form, form_of};
use crate::spellings::small_fits;

/// A run, a level's size less one and its sign, spelled one behind the other.
#[derive(Clone, Copy, Debug, PartialEq, Eq)]
pub struct Pair {
    /// The number whose bits the spellings are.
    pub number: u32,
    /// How many bits.
    pub size: u8,
    /// The row of the codes behind them.
    pub row: u16,
}

/// The row of the codes that follow a run and a size less one.
pub fn pair_row(run: u32, size_less_one: u32) -> u16
    ensures { IsPairRow run size_less_one result }
{
    128 * u16::from(6 * run_class(run) + level_class(size_less_one))
}

/// Every pair of a run below 8 and a level of size 7 at most, by the codes that follow each run and size (own). It has
/// 36 KB and is made of half a million steps: make it once a run of the program, and lend it.
#[derive(Drop)]
pub struct Pairs {
    pairs: [Pair; 4608],
    ghost each: { ArePairs pairs 4608 },
}

impl Pairs {
    /// Spells them all.
    pub fn new() -> Pairs {
        let mut pairs = [Pair {
            number: 0,
            size: 0,
            row: 0,
        }; 4608];
        for k in 0..4608usize {
            pairs[k] = pair_of((k / 128) as u8, (k / 16 % 8) as u32, (k % 16) as u32);
        }
        Pairs { pairs }
    }

    /// The pair of a run and a level by the codes of a row, which is that of the pair before or of `pair_row`. `level` is
    /// twice the level's size, and one more if the level is negative.
    #[inline(always)]
    pub fn get(&self, row: usize, run: usize, level: usize) -> Pair
        requires row { (row < 4608) × (row % 128 ≡ 0) }
        requires run { run < 8 }
        requires level { level < 16 }
        ensures { IsPair row run level result }
    {
        self.pairs[row + 16 * run + level]
    }
}

fn pair_of(state: u8, run: u32, level: u32) -> Pair
    requires state { state < 36 }
    requires run { run < 8 }
    requires level { level < 16 }
    ensures { IsPair (128 * state) run level result }
{
    let size_less_one = (level / 2).saturating_sub(1);
    let one = short_run(state / 6, run);
    let two = small_level(state % 6, size_less_one);
    Pair {
        number: joined(&one, &two, level % 2),
        size: one.size + two.size + 1,
        row: pair_row(run, size_less_one),
    }
}

// The number of two forms and a sign, one behind the other.
fn joined(one: &Form, two: &Form, sign: u32) -> u32
    requires small { (one.now.number < 2 ^ one.now.size) × (two.now.number < 2 ^ two.now.size) }
    requires short { (one.now.size ≤ 7) × (two.now.size ≤ 7) }
    requires sign { sign < 2 }
    ensures { result ≡ (one.now.number * 2 ^ two.now.size + two.now.number) * 2 + sign }
{
    ((one.number << two.size) + two.number) * 2 + sign
}

fn short_run(class: u8, run: u32) -> Form
    requires class { class < 6 }
    requires run { run < 8 }
    ensures form { IsForm (run_parameters (slice_index FIRST_RUNS class)) run result.size result.number }
    ensures short { result.size ≤ 7 }
{
    let code = run_code(FIRST_RUNS[class as usize]);
    small_fits(code, run, 15);
    form_of(code, run)
}

fn small_level(class: u8, size_less_one: u32) -> Form
    requires class { class < 6 }
    requires size { size_less_one < 7 }
    ensures form { IsForm (level_parameters (slice_index FIRST_SIZES class)) size_less_one result.size result.number }
    ensures short { result.size ≤ 7 }
{
    let code = level_code(FIRST_SIZES[class as usize]);
    small_fits(code, size_less_one, 15);
    form_of(code, size_less_one)
}

#[cfg(test)]
mod tests {
    use super::*;

    #[test]
    fn pairs_have_the_bits_of_their_three_parts(rt: HostRuntime) {
        let pairs = Pairs::new();
        // worked out by hand: the codes before, run, twice the size and the sign, bits, their number, the codes behind
        let cases: [(u16, usize, usize, u8, u32, u16); 4] = [
            // 1, 1, 0
            (pair_row(4, 1), 0, 2, 3, 6, pair_row(0, 0)),
            // 00100, 01, 1
            (pair_row(4, 1), 3, 5, 8, 35, pair_row(2, 1)),
            // 001, 000101, 0
            (pair_row(0, 0), 2, 10, 10, 138, pair_row(3, 5)),
            // 01011, 01010, 1
            (pair_row(15, 8), 7, 15, 11, 725, pair_row(8, 7)),
        ];
        for (row, run, level, size, number, next) in cases {
            assert!(rt; row < 4608 && row % 128 == 0 && run < 8 && level < 16);
            let pair = pairs.get(row as usize, run, level);
            assert_eq!(rt; pair.size, size, "run {run} and level {level}");
            assert_eq!(rt; pair.number, number, "run {run} and level {level}");
            assert_eq!(rt; pair.row, next, "run {run} and level {level}");
        }
    }
}
