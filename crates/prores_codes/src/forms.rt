ghost use Rattle.std.specs.Prelude.{◌≡◌, ◌+◌, ◌-◌, ◌*◌, ◌/◌, ◌^◌, ◌<◌, ◌≤◌, ◌↔◌, IsTrue, IfSome, IfNone};
ghost use Rattle.prores_codes.specs.Codes.{HasDigits, Fits, parameters, short_count, long_number};
ghost use Rattle.prores_codes.specs.inner.Forms.{IsForm, IsFound, many_zeros};

use crate::code::Code;

/// A spelling as a number.
#[derive(Drop)]
pub struct Form {
    /// Bits of the spelling.
    pub size: u8,
    /// The number that they spell.
    pub number: u32,
}

/// A number whose spelling was found.
#[derive(Drop)]
pub struct Found {
    /// Bits of the spelling.
    pub size: u8,
    /// The number.
    pub number: u32,
}

fn power_of_two(exponent: u8) -> u32
    requires { exponent < 32 }
    ensures { result ≡ 2 ^ exponent }
{
    1 << exponent
}

/// How many numbers have a short spelling.
fn short_count(code: Code) -> u32
    ensures { result ≡ short_count (parameters code) }
{
    (u32::from(code.a) + 1) << code.r
}

/// The number in whose digits a long spelling ends.
fn long_number(code: Code, n: u32) -> u64
    requires { short_count (parameters code) ≤ n }
    ensures { result ≡ long_number (parameters code) n }
{
    u64::from(n - short_count(code)) + u64::from(power_of_two(code.e))
}

/// How many binary digits a number has.
fn digits_of(number: u64) -> u8
    requires { 0 < number }
    ensures digits { HasDigits result number }
    ensures most { result ≤ 64 }
{
    64 - number.leading_zeros() as u8
}

/// Whether a number has a spelling.
pub fn has_form(code: Code, n: u32) -> bool
    ensures { IsTrue result ↔ Fits (parameters code) n }
{
    if n < short_count(code) {
        return true;
    }
    code.a + 2 * digits_of(long_number(code, n)) <= 32 + code.e
}

/// The spelling of a number.
pub fn form_of(code: Code, n: u32) -> Form
    requires { Fits (parameters code) n }
    ensures { IsForm (parameters code) n result.size result.number }
{
    if n < short_count(code) {
        short_form(code, n)
    } else {
        long_form(code, n)
    }
}

fn short_form(code: Code, n: u32) -> Form
    requires { n < short_count (parameters code) }
    ensures { IsForm (parameters code) n result.size result.number }
{
    let one = power_of_two(code.r);
    Form {
        size: (n >> code.r) as u8 + 1 + code.r,
        number: one + (n & (one - 1)),
    }
}

fn long_form(code: Code, n: u32) -> Form
    requires large { short_count (parameters code) ≤ n }
    requires fits { Fits (parameters code) n }
    ensures { IsForm (parameters code) n result.size result.number }
{
    let number = long_number(code, n);
    Form {
        size: code.a + 2 * digits_of(number) - code.e,
        number: number as u32,
    }
}

/// The fewest zeros of a code of more than 32 bits.
pub fn many_zeros(code: Code) -> u8
    ensures value { result ≡ many_zeros (parameters code) }
    ensures small { result ≤ 18 }
{
    (32 + code.a - code.e) / 2 + 1
}

/// The number whose spelling the next 32 bits begin with, or none where too many zeros stand there.
pub fn find(code: Code, next: u32) -> Option<Found>
    ensures found { IfSome result (λ f. IsFound (parameters code) next f.size f.number) }
    ensures none { IfNone result (next / 2 ^ (32 - many_zeros (parameters code)) ≡ 0) }
{
    let zeros = next.leading_zeros() as u8;
    if zeros <= code.a {
        Some(find_short(code, next, zeros))
    } else if 2 * zeros + code.e - code.a <= 32 {
        Some(find_long(code, next, zeros))
    } else {
        None
    }
}

fn find_short(code: Code, next: u32, zeros: u8) -> Found
    requires few { zeros ≤ code.a }
    requires highest { 2 ^ (31 - zeros) ≤ next }
    requires all { next < 2 ^ (32 - zeros) }
    ensures { IsFound (parameters code) next result.size result.number }
{
    let size = zeros + 1 + code.r;
    let tail = next >> (32 - size);
    Found {
        size,
        number: (u32::from(zeros) << code.r) + tail - power_of_two(code.r),
    }
}

fn find_long(code: Code, next: u32, zeros: u8) -> Found
    requires more { code.a < zeros }
    requires few { 2 * zeros + code.e - code.a ≤ 32 }
    requires highest { 2 ^ (31 - zeros) ≤ next }
    requires all { next < 2 ^ (32 - zeros) }
    ensures { IsFound (parameters code) next result.size result.number }
{
    let size = 2 * zeros + code.e - code.a;
    let tail = next >> (32 - size);
    Found {
        size,
        number: tail - power_of_two(code.e) + short_count(code),
    }
}
