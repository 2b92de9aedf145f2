ghost use Rattle.std.specs.Prelude.{◌≡◌, ◌≤◌, ◌<◌, ◌*◌, ℕ, length, slice_index, IfSome, IfNone};
ghost use Rattle.raw_feed.specs.Items.{sample_in};
ghost use Rattle.raw_feed.specs.Pictures.{spelled};

use crate::kind::SAMPLE_LEN;
use crate::limits::MAX_SAMPLE;

/// Takes the samples that stand in bytes, and answers the first of them that is too great.
pub(crate) fn take_samples(bytes: &[u8], samples: &mut [u16]) -> Option<usize>
    requires { length bytes.now ≡ SAMPLE_LEN * length samples.old }
    ensures read { (k : ℕ) → k < length samples.new → slice_index samples.new k ≡ sample_in bytes.now k }
    ensures spelled { spelled samples.new ≡ bytes.now }
    ensures right { IfNone result ((k : ℕ) → k < length samples.new → slice_index samples.new k ≤ MAX_SAMPLE) }
    ensures wrong { IfSome result (λ k. (k < length samples.new) × (MAX_SAMPLE < slice_index samples.new k)
        × ((j : ℕ) → j < k → slice_index samples.new j ≤ MAX_SAMPLE)) }
{
    if put_samples(bytes, samples) <= MAX_SAMPLE {
        return None;
    }
    first_wrong(samples)
}

/// Takes the samples that stand in bytes, and answers the greatest of them.
fn put_samples(bytes: &[u8], samples: &mut [u16]) -> u16
    requires { length bytes.now ≡ SAMPLE_LEN * length samples.old }
    ensures read { (k : ℕ) → k < length samples.new → slice_index samples.new k ≡ sample_in bytes.now k }
    ensures spelled { spelled samples.new ≡ bytes.now }
    ensures most { (k : ℕ) → k < length samples.new → slice_index samples.new k ≤ result }
{
    let mut greatest = 0;
    for k in 0..samples.len() {
        let value = u16::from(bytes[2 * k]) * 256 + u16::from(bytes[2 * k + 1]);
        samples[k] = value;
        greatest = greatest.max(value);
    }
    greatest
}

/// The place of the first sample that is too great.
fn first_wrong(samples: &[u16]) -> Option<usize>
    ensures right { IfNone result ((k : ℕ) → k < length samples.now → slice_index samples.now k ≤ MAX_SAMPLE) }
    ensures wrong { IfSome result (λ k. (k < length samples.now) × (MAX_SAMPLE < slice_index samples.now k)
        × ((j : ℕ) → j < k → slice_index samples.now j ≤ MAX_SAMPLE)) }
{
    for k in 0..samples.len() {
        if samples[k] > MAX_SAMPLE {
            return Some(k);
        }
    }
    None
}
