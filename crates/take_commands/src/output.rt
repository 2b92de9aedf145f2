//! What a command writes to its sink: a piece of bytes, or a picture's samples.

ghost use Rattle.std.specs.Prelude.{◌≡◌, ◌≤◌, ◌*◌, length};
ghost use Rattle.raw_feed.specs.Pictures.{spelled};
ghost use Rattle.raw_feed.specs.Written.{Writes};
ghost use Rattle.raw_feed.specs.declared.kind.TheConstants.{SAMPLE_LEN};
ghost use Rattle.take_commands.specs.inner.Steps.{HasSinkCause};

use crate::fault::TakeFault;
use raw_feed::{SAMPLE_LEN, Sink, put_all};
use rec_bytes::{Failed, put_u16};

/// Most samples whose bytes are put together before they are written.
const PIECE_SAMPLES: usize = 2048;

/// Writes samples, each in two bytes, the highest first, or a front of them where the sink fails.
pub(crate) fn put_samples<W: Sink>(samples: &[u16], out: &mut W) -> Result<(), TakeFault>
    ensures written { Writes (W.written out.old) (W.written out.new) result (spelled samples.now) }
    ensures cause { HasSinkCause (W.fault_count out.old) (W.fault_count out.new) result }
{
    let mut at = 0;
    while at < samples.len() {
        let count = (samples.len() - at).min(PIECE_SAMPLES);
        put_few(&samples[at..at + count], out)?;
        at += count;
    }
    Ok(())
}

/// Writes as many samples as are put together.
fn put_few<W: Sink>(samples: &[u16], out: &mut W) -> Result<(), TakeFault>
    requires { length samples.now ≤ PIECE_SAMPLES }
    ensures written { Writes (W.written out.old) (W.written out.new) result (spelled samples.now) }
    ensures cause { HasSinkCause (W.fault_count out.old) (W.fault_count out.new) result }
{
    let mut room = [0u8; SAMPLE_LEN * PIECE_SAMPLES];
    let bytes = &mut room[..SAMPLE_LEN * samples.len()];
    spell(samples, bytes);
    put_piece(bytes, out)
}

/// Puts samples into bytes, each in two, the highest first.
fn spell(samples: &[u16], bytes: &mut [u8])
    requires { length bytes.old ≡ SAMPLE_LEN * length samples.now }
    ensures { bytes.new ≡ spelled samples.now }
{
    for k in 0..samples.len() {
        put_u16(bytes, SAMPLE_LEN * k, samples[k]);
    }
}

/// Writes a piece, or a front of it where the sink fails.
pub(crate) fn put_piece<W: Sink>(piece: &[u8], out: &mut W) -> Result<(), TakeFault>
    ensures written { Writes (W.written out.old) (W.written out.new) result piece.now }
    ensures cause { HasSinkCause (W.fault_count out.old) (W.fault_count out.new) result }
{
    match put_all(out, piece) {
        Ok(()) => Ok(()),
        Err(Failed) => Err(TakeFault::Sink {
            count: out.faults(),
        }),
    }
}

#[cfg(test)]
mod tests {
    use super::*;
    use raw_feed::MemorySink;
    use std::test::Fail;

    /// Most bytes that a test's sink takes.
    const ROOM: usize = 3 * SAMPLE_LEN * PIECE_SAMPLES;

    // docs/formats/feed.md, "Feeds": a sample in two bytes, the highest first.
    #[test]
    fn the_highest_byte_comes_first(rt: HostRuntime) -> Result<(), Fail> {
        let mut sink = MemorySink::new(rt.alloc(), ROOM, &[])?;
        let samples: [u16; 4] = [0, 1, 256, 1023];
        assert_eq!(rt; put_samples(&samples, &mut sink), Ok(()));
        let bytes: [u8; 8] = [0, 0, 0, 1, 1, 0, 3, 255];
        assert_eq!(rt; sink.bytes(), bytes.as_slice());
        Ok(())
    }

    #[test]
    fn samples_are_written_up_to_the_first_failure(rt: HostRuntime) -> Result<(), Fail> {
        let samples = [515u16; 2 * PIECE_SAMPLES + 1];
        let cases: [(&[u64], Result<(), TakeFault>, usize); 4] = [
            (&[], Ok(()), 8194),
            (&[0], Err(TakeFault::Sink { count: 1 }), 0),
            (&[1], Err(TakeFault::Sink { count: 1 }), 4096),
            (&[2], Err(TakeFault::Sink { count: 1 }), 8192),
        ];
        for (fail, ended, taken) in cases {
            let mut sink = MemorySink::new(rt.alloc(), ROOM, fail)?;
            assert_eq!(rt; put_samples(&samples, &mut sink), ended, "{taken}");
            assert_eq!(rt; sink.bytes().len(), taken, "{taken}");
        }
        Ok(())
    }
}
