ghost use Rattle.std.specs.Prelude.{◌≡◌};
ghost use Rattle.std.specs.Int.RustNames.{unsigned_abs};
ghost use Rattle.prores_codes.specs.Choices.{dc_parameters, run_parameters, level_parameters};
ghost use Rattle.prores_codes.specs.Codes.{order, parameters};

use crate::code::Code;

/// The code of the first DC level, folded.
pub fn first_code() -> Code
    ensures { parameters result ≡ order 5 }
{
    Code { a: 0, r: 5, e: 6 }
}

/// The code of a folded DC difference, by the difference before.
pub fn dc_code(previous: i64) -> Code
    ensures { parameters result ≡ dc_parameters (unsigned_abs previous) }
{
    let (a, r, e) = DC_CODES[previous.unsigned_abs().min(3) as usize];
    Code { a, r, e }
}

/// The code of a run of zeros, by the run before.
pub fn run_code(previous: u32) -> Code
    ensures { parameters result ≡ run_parameters previous }
{
    let (a, r, e) = RUN_CODES[previous.min(15) as usize];
    Code { a, r, e }
}

/// The code of a level's size less one, by the size less one before.
pub fn level_code(previous: u32) -> Code
    ensures { parameters result ≡ level_parameters previous }
{
    let (a, r, e) = LEVEL_CODES[previous.min(8) as usize];
    Code { a, r, e }
}

// the tables of docs/FORMATS.md, "Codes", a row for each number up to the last one's
static DC_CODES: [(u8, u8, u8); 4] = [(0, 0, 1), (0, 1, 2), (1, 2, 3), (0, 3, 4)];

static RUN_CODES: [(u8, u8, u8); 16] = [
    (2, 0, 1),
    (2, 0, 1),
    (1, 0, 1),
    (1, 0, 1),
    (0, 0, 1),
    (1, 1, 2),
    (1, 1, 2),
    (1, 1, 2),
    (1, 1, 2),
    (0, 1, 2),
    (0, 1, 2),
    (0, 1, 2),
    (0, 1, 2),
    (0, 1, 2),
    (0, 1, 2),
    (0, 2, 3),
];

static LEVEL_CODES: [(u8, u8, u8); 9] = [
    (2, 0, 2),
    (1, 0, 1),
    (2, 0, 1),
    (0, 0, 1),
    (0, 1, 2),
    (0, 1, 2),
    (0, 1, 2),
    (0, 1, 2),
    (0, 2, 3),
];
