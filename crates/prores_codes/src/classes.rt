ghost use Rattle.std.specs.Prelude.{◌≡◌, ◌<◌, slice_index};
ghost use Rattle.prores_codes.specs.Choices.{run_parameters, level_parameters};

// the least run, and the least size less one, that each of the six codes follows
pub static FIRST_RUNS: [u32; 6] = [0, 2, 4, 5, 9, 15];

pub static FIRST_SIZES: [u32; 6] = [0, 1, 2, 3, 4, 8];

/// Which of the six codes follows a run.
pub fn run_class(run: u32) -> u8
    ensures within { result < 6 }
    ensures code { run_parameters (slice_index FIRST_RUNS result) ≡ run_parameters run }
{
    match run {
        0 | 1 => 0,
        2 | 3 => 1,
        4 => 2,
        5..=8 => 3,
        9..=14 => 4,
        _ => 5,
    }
}

/// Which of the six codes follows a size less one.
pub fn level_class(size_less_one: u32) -> u8
    ensures within { result < 6 }
    ensures code { level_parameters (slice_index FIRST_SIZES result) ≡ level_parameters size_less_one }
{
    match size_less_one {
        0 => 0,
        1 => 1,
        2 => 2,
        3 => 3,
        4..=7 => 4,
        _ => 5,
    }
}
