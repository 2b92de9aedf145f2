ghost use Rattle.std.specs.Prelude.{◌≡◌, ◌+◌, ◌^◌, ◌≤◌, ◌<◌, [], ◌∷◌, ◌++◌, true, ℕ, List, Some, None, length, drop, take, slice_index, replicate};
ghost use Rattle.std.specs.Prelude.{IfSome, IfOk, IfErr};
ghost use Rattle.byteorder.specs.Endian.{big_number, big_bytes};
ghost use Rattle.rec_bytes.specs.Configuration.{Fields, Spells, fields_of, first_fault, first_broken, picture_rules, coding_rules, take_rules, zero_rules};
ghost use Rattle.rec_bytes.specs.Configuration.{field_rules, is_config, are_zero};
ghost use Rattle.rec_bytes.specs.Views.{view};
ghost use Rattle.rec_bytes.specs.declared.config_fields.TheConstants.{CONFIG_LEN};

use crate::config::Config;
use crate::config_fields::*;
use crate::number::{put_bytes, put_u16, put_u32};
use byteorder::{BigEndian, ByteOrder};

/// Reads a configuration (docs/FORMATS.md, "Configuration"). `Err` is the first byte of the first field
/// that breaks its rule.
#[tactic(auto, using(crate::proofs::Rules::refusals))]
pub fn read_config(bytes: &[u8; CONFIG_LEN]) -> Result<Config, usize>
    ensures spelled { IfOk result (λ cfg. Spells bytes.now (view cfg)) }

    ensures refused { IfErr result (λ at. first_fault bytes.now ≡ Some at) }
    ensures placed { IfErr result (λ at. at < CONFIG_LEN) }
{
    if let Some(at) = picture_fault(bytes) {
        return Err(at);
    }
    if let Some(at) = coding_fault(bytes) {
        return Err(at);
    }
    if let Some(at) = take_fault(bytes) {
        return Err(at);
    }
    if let Some(at) = zero_fault(bytes) {
        return Err(at);
    }
    Ok(config_of(bytes))
}

#[tactic(auto, unfolding(crate::specs::Configuration::picture_rules, crate::specs::Configuration::first_broken, crate::specs::Configuration::fields_of))]
fn picture_fault(bytes: &[u8; CONFIG_LEN]) -> Option<usize>
    ensures first { result ≡ first_broken (picture_rules (fields_of bytes.now)) }
    ensures placed { IfSome result (λ at. at < CONFIG_LEN) }
{
    let width = u16_at(bytes, WIDTH_AT);
    if width < 2 || width > MAX_WIDTH || width % 2 != 0 {
        return Some(WIDTH_AT);
    }
    let height = u16_at(bytes, HEIGHT_AT);
    if height < 1 || height > MAX_HEIGHT || bytes[INTERLACE_AT] != 0 && height % 2 != 0 {
        return Some(HEIGHT_AT);
    }
    if bytes[INTERLACE_AT] > MAX_INTERLACE {
        return Some(INTERLACE_AT);
    }
    if bytes[RATE_AT] < 1 || bytes[RATE_AT] > MAX_RATE {
        return Some(RATE_AT);
    }
    if bytes[ASPECT_AT] > MAX_ASPECT {
        return Some(ASPECT_AT);
    }
    None
}

#[tactic(auto, unfolding(crate::specs::Configuration::coding_rules, crate::specs::Configuration::first_broken, crate::specs::Configuration::fields_of))]
fn coding_fault(bytes: &[u8; CONFIG_LEN]) -> Option<usize>
    ensures first { result ≡ first_broken (coding_rules (fields_of bytes.now)) }
    ensures placed { IfSome result (λ at. at < CONFIG_LEN) }
{
    if bytes[LOG2_AT] > MAX_LOG2 {
        return Some(LOG2_AT);
    }
    if bytes[QMIN_AT] < 1 || bytes[QMIN_AT] > MAX_INDEX {
        return Some(QMIN_AT);
    }
    if bytes[QMAX_AT] < bytes[QMIN_AT] || bytes[QMAX_AT] > MAX_INDEX {
        return Some(QMAX_AT);
    }
    if bytes[WEIGHTS_AT] > MAX_WEIGHTS {
        return Some(WEIGHTS_AT);
    }
    if bytes[CODING_AT] > MAX_CODING {
        return Some(CODING_AT);
    }
    None
}

#[tactic(auto, unfolding(crate::specs::Configuration::take_rules, crate::specs::Configuration::first_broken, crate::specs::Configuration::fields_of))]
fn take_fault(bytes: &[u8; CONFIG_LEN]) -> Option<usize>
    ensures first { result ≡ first_broken (take_rules (fields_of bytes.now)) }
    ensures placed { IfSome result (λ at. at < CONFIG_LEN) }
{
    if bytes[DROP_AT] > MAX_DROP {
        return Some(DROP_AT);
    }
    let budget = u16_at(bytes, BUDGET_AT);
    if budget < 1 || budget > MAX_BUDGET {
        return Some(BUDGET_AT);
    }
    let part = u16_at(bytes, PART_AT);
    if part < 1 || part > MAX_PART {
        return Some(PART_AT);
    }
    let max_frames = u32_at(bytes, MAX_FRAMES_AT);
    if max_frames < 1 || max_frames > MAX_FRAMES {
        return Some(MAX_FRAMES_AT);
    }
    let lag = u16_at(bytes, LAG_AT);
    if lag < 1 || lag > MAX_LAG {
        return Some(LAG_AT);
    }
    None
}

#[tactic(auto, unfolding(crate::specs::Configuration::zero_rules, crate::specs::Configuration::first_broken))]
fn zero_fault(bytes: &[u8; CONFIG_LEN]) -> Option<usize>
    ensures first { result ≡ first_broken (zero_rules bytes.now) }
    ensures placed { IfSome result (λ at. at < CONFIG_LEN) }
{
    if !is_zero(&bytes[ZERO_AT..START_AT]) {
        return Some(ZERO_AT);
    }
    if !is_zero(&bytes[END_AT..CONFIG_LEN]) {
        return Some(END_AT);
    }
    None
}

/// Whether all bytes are 0.
fn is_zero(bytes: &[u8]) -> bool
    ensures { result ≡ are_zero bytes.now }
{
    bytes.iter().all(|b| *b == 0)
}

/// The configuration whose fields stand in bytes that keep the rules.
fn config_of(bytes: &[u8; CONFIG_LEN]) -> Config
    requires { is_config (fields_of bytes.now) ≡ true }
    ensures { view result ≡ fields_of bytes.now }
{
    let take_id = array_at::<16>(bytes, TAKE_ID_AT);
    let encoder = array_at::<4>(bytes, ENCODER_AT);
    Config {
        width: u16_at(bytes, WIDTH_AT),
        height: u16_at(bytes, HEIGHT_AT),
        interlace: bytes[INTERLACE_AT],
        rate: bytes[RATE_AT],
        aspect: bytes[ASPECT_AT],
        primaries: bytes[PRIMARIES_AT],
        transfer: bytes[TRANSFER_AT],
        matrix: bytes[MATRIX_AT],
        log2: bytes[LOG2_AT],
        qmin: bytes[QMIN_AT],
        qmax: bytes[QMAX_AT],
        weights: bytes[WEIGHTS_AT],
        coding: bytes[CODING_AT],
        drop: bytes[DROP_AT],
        budget: u16_at(bytes, BUDGET_AT),
        part: u16_at(bytes, PART_AT),
        max_frames: u32_at(bytes, MAX_FRAMES_AT),
        lag: u16_at(bytes, LAG_AT),
        start: u32_at(bytes, START_AT),
        take_id,
        encoder,
    }
}

fn u16_at(bytes: &[u8; CONFIG_LEN], at: usize) -> u16
    requires { at + 2 ≤ CONFIG_LEN }
    ensures { result ≡ big_number 2 (drop at bytes.now) }
{
    BigEndian::read_u16(&bytes[at..])
}

fn u32_at(bytes: &[u8; CONFIG_LEN], at: usize) -> u32
    requires { at + 4 ≤ CONFIG_LEN }
    ensures { result ≡ big_number 4 (drop at bytes.now) }
{
    BigEndian::read_u32(&bytes[at..])
}

fn array_at<const N: usize>(bytes: &[u8; CONFIG_LEN], at: usize) -> [u8; N]
    requires { at + N ≤ CONFIG_LEN }
    ensures { result ≡ take N (drop at bytes.now) }
{
    let mut found = [0u8; N];
    found.copy_from_slice(&bytes[at..at + N]);
    found
}

/// Writes the one spelling of a configuration.
pub fn put_config(cfg: &Config, out: &mut [u8; CONFIG_LEN])
    ensures spelled { Spells out.new (view cfg.now) }
{
    append_u16(out, WIDTH_AT, cfg.width);
    append_u16(out, HEIGHT_AT, cfg.height);
    append_u8(out, INTERLACE_AT, cfg.interlace);
    append_u8(out, RATE_AT, cfg.rate);
    append_u8(out, ASPECT_AT, cfg.aspect);
    append_u8(out, PRIMARIES_AT, cfg.primaries);
    append_u8(out, TRANSFER_AT, cfg.transfer);
    append_u8(out, MATRIX_AT, cfg.matrix);
    append_u8(out, LOG2_AT, cfg.log2);
    append_u8(out, QMIN_AT, cfg.qmin);
    append_u8(out, QMAX_AT, cfg.qmax);
    append_u8(out, WEIGHTS_AT, cfg.weights);
    append_u8(out, CODING_AT, cfg.coding);
    append_u8(out, DROP_AT, cfg.drop);
    append_u16(out, BUDGET_AT, cfg.budget);
    append_u16(out, PART_AT, cfg.part);
    append_u32(out, MAX_FRAMES_AT, cfg.max_frames);
    append_u16(out, LAG_AT, cfg.lag);
    append::<2>(out, ZERO_AT, &[0; 2]);
    append_u32(out, START_AT, cfg.start);
    append::<16>(out, TAKE_ID_AT, &cfg.take_id);
    append::<4>(out, ENCODER_AT, &cfg.encoder);
    append::<12>(out, END_AT, &[0; 12]);
}

/// Shows that 64 bytes which break no rule are the spelling of the fields that stand in them, and
/// that a spelling has 64 bytes. It does nothing when it runs.
pub fn spellings_are_configurations()
    ensures there { (bytes : List ℕ) → length bytes ≡ CONFIG_LEN → ((i : ℕ) → slice_index bytes i < 256)
        → first_fault bytes ≡ None → Spells bytes (fields_of bytes) }
    ensures sized { (bytes : List ℕ) (fields : Fields) → Spells bytes fields → length bytes ≡ CONFIG_LEN }
{}

/// Writes a byte behind those that are written.
fn append_u8(out: &mut [u8; CONFIG_LEN], at: usize, value: u8)
    requires { at < CONFIG_LEN }
    ensures { take (at + 1) out.new ≡ take at out.old ++ value ∷ [] }
{
    out[at] = value;
}

/// Writes a number of 16 bits behind the bytes that are written.
fn append_u16(out: &mut [u8; CONFIG_LEN], at: usize, value: u16)
    requires { at + 2 ≤ CONFIG_LEN }
    ensures appended { take (at + 2) out.new ≡ take at out.old ++ big_bytes 2 value }
    ensures fits { value < 256 ^ 2 }
{
    put_u16(out, at, value);
}

/// Writes a number of 32 bits behind the bytes that are written.
fn append_u32(out: &mut [u8; CONFIG_LEN], at: usize, value: u32)
    requires { at + 4 ≤ CONFIG_LEN }
    ensures appended { take (at + 4) out.new ≡ take at out.old ++ big_bytes 4 value }
    ensures fits { value < 256 ^ 4 }
{
    put_u32(out, at, value);
}

/// Writes bytes behind those that are written.
fn append<const N: usize>(out: &mut [u8; CONFIG_LEN], at: usize, bytes: &[u8; N])
    requires { at + N ≤ CONFIG_LEN }
    ensures { take (at + N) out.new ≡ take at out.old ++ bytes.now }
{
    put_bytes(out, at, bytes);
}
