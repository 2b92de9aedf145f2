//! A part, read where each level has 16 bits.

ghost use Rattle.std.specs.Prelude.{◌≡◌, ◌≤◌, ◌*◌, pos, length, replicate, IsTrue};
ghost use Rattle.bit_io.specs.Bits.{bits_of};
ghost use Rattle.slice_parts.specs.Joined.{ReadsAll};
ghost use Rattle.slice_parts.specs.Dc.{DcSpells, dc_next};
ghost use Rattle.slice_parts.specs.Dc.DcState.{First};
ghost use Rattle.slice_parts.specs.Component.{IsComponent};

use crate::dc::read_dc;
use crate::short_pairs::read_short_pairs;
use bit_io::BitReader;
use prores_codes::Heads;

/// Reads a part into levels of 16 bits that are zero, 64 for each of the 1 to 32 blocks, interleaved, and says whether it
/// could. Where it couldn't, `out` holds anything, and nothing is said of the bytes: `read_part_with` tells their levels or
/// their fault.
pub fn read_short_part(tables: &Heads, bytes: &[u8], blocks: usize, out: &mut [i16]) -> bool
    requires blocks { (1 ≤ blocks) × (blocks ≤ 32) }
    requires long { length out.old ≡ 64 * blocks }
    requires zeros { out.old ≡ replicate (length out.old) (pos 0) }
    ensures read { IsTrue result → IsComponent blocks (bits_of bytes.now) out.new }
    ensures long { length out.new ≡ length out.old }
{
    let mut bits = BitReader::new(bytes);
    if !read_short_dc(&mut bits, &mut out[..blocks]) {
        return false;
    }
    read_short_pairs(tables, bits, &mut out[blocks..])
}

/// Reads DC levels, and says whether each has 16 bits.
fn read_short_dc(bits: &mut BitReader<'_>, out: &mut [i16]) -> bool
    requires some { 1 ≤ length out.old }
    requires few { length out.old ≤ 32 }
    ensures read { IsTrue result → ReadsAll DcSpells dc_next First bits.old bits.new out.new }
    ensures long { length out.new ≡ length out.old }
{
    let mut levels = [0i64; 32];
    let count = out.len();
    match read_dc(bits, &mut levels[..count]) {
        Ok(()) => put_short(&levels[..count], out),
        Err(_) => false,
    }
}

/// Puts levels where each has 16 bits, and says whether it has.
fn put_short(levels: &[i64], out: &mut [i16]) -> bool
    requires { length out.old ≡ length levels.now }
    ensures same { IsTrue result → out.new ≡ levels.now }
    ensures long { length out.new ≡ length out.old }
{
    for k in 0..levels.len() {
        let level = levels[k];
        if level < -32768 || level > 32767 {
            return false;
        }
        out[k] = level as i16;
    }
    true
}

#[cfg(test)]
mod tests {
    use super::*;

    #[test]
    fn levels_of_16_bits_are_read_and_faults_left_to_others(rt: HostRuntime) {
        let heads = Heads::new();
        // the parts of part.rt, as another program wrote them
        let mut levels = [0i16; 256];
        assert!(rt; read_short_part(&heads, &[0x82, 0x30, 0x1f, 0x90], 4, &mut levels));
        let mut want = [0i16; 256];
        want[255] = 1;
        assert_eq!(rt; levels, want);
        let mut levels = [0i16; 128];
        let bytes = [0x3a, 0x01, 0x33, 0x93, 0x89, 0x82, 0xd0, 0x64, 0x09, 0x80];
        assert!(rt; read_short_part(&heads, &bytes, 2, &mut levels));
        let mut want = [0i16; 128];
        want[0] = 100;
        want[1] = -50;
        want[2] = 3;
        want[3] = -1;
        want[7] = -2;
        want[30] = 1;
        want[127] = -9;
        assert_eq!(rt; levels, want);
        // a run of 252, and no DC level
        let mut levels = [0i16; 256];
        assert!(rt; !read_short_part(&heads, &[0x82, 0x30, 0x1f, 0xb0], 4, &mut levels));
        let mut levels = [0i16; 256];
        assert!(rt; !read_short_part(&heads, &[0, 0, 0], 4, &mut levels));
    }
}
