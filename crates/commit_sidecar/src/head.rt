//! The head of a commit file.

ghost use Rattle.std.specs.Prelude.{◌≡◌, ◌∷◌, ◌++◌, ◌≤◌, [], IfOk, IfErr, IfSome, None, List, ℕ, length, take};
ghost use Rattle.rec_bytes.specs.Views.{view};
ghost use Rattle.commit_sidecar.specs.Says.{Says, head_of};
ghost use Rattle.commit_sidecar.specs.Refusals.{IsNoTake, DiffersAt};
ghost use Rattle.commit_sidecar.specs.Looks.{BeginsHead};
ghost use Rattle.commit_sidecar.specs.declared.head.TheConstants.{MAGIC, MAGIC_LEN};

use rec_bytes::{CONFIG_LEN, Config, put_bytes, put_config, put_u8, read_config};

/// Bytes of a commit file's magic.
pub const MAGIC_LEN: usize = 8;

/// The first bytes of a commit file.
pub const MAGIC: [u8; MAGIC_LEN] = *b"PRTAKE01";

/// Bytes of a commit file's head: its magic and its configuration.
pub const HEAD_LEN: usize = MAGIC_LEN + CONFIG_LEN;

/// Bytes of a commit file without records: its head and the first gate.
pub const FIRST_GATE: usize = HEAD_LEN + 1;

/// Writes the head of a commit file and the first gate, which isn't open.
pub fn put_head(cfg: &Config, out: &mut [u8; FIRST_GATE])
    ensures written { out.new ≡ head_of (view cfg.now) ++ 0 ∷ [] }
    ensures says { Says out.new (view cfg.now) [] }
{
    let mut spelling = [0u8; CONFIG_LEN];
    put_config(cfg, &mut spelling);
    put_bytes(out, 0, &MAGIC);
    put_bytes(out, MAGIC_LEN, &spelling);
    put_u8(out, HEAD_LEN, 0);
}

/// Reads the head of a commit file. `Err` is the place of the first byte that is no part of a head, or the length where the
/// head is cut. The first `HEAD_LEN` bytes decide.
pub fn read_head(bytes: &[u8]) -> Result<Config, u64>
    ensures head { IfOk result (λ config. BeginsHead bytes.now (view config)) }

    ensures refused { IfErr result (IsNoTake bytes.now) }
{
    if let Some(at) = other_magic(bytes) {
        return Err(at as u64);
    }
    if bytes.len() < HEAD_LEN {
        return Err(bytes.len() as u64);
    }
    let mut spelling = [0u8; CONFIG_LEN];
    spelling.copy_from_slice(&bytes[MAGIC_LEN..HEAD_LEN]);
    match read_config(&spelling) {
        Ok(config) => Ok(config),
        Err(at) => Err((MAGIC_LEN + at) as u64),
    }
}

/// The first byte of the magic that is there and differs.
fn other_magic(bytes: &[u8]) -> Option<usize>
    ensures differs { IfSome result (DiffersAt bytes.now) }
    ensures same { result ≡ None → take MAGIC_LEN bytes.now ≡ take (length bytes.now) MAGIC }
{
    for at in 0..MAGIC_LEN {
        if at >= bytes.len() {
            return None;
        }
        if bytes[at] != MAGIC[at] {
            return Some(at);
        }
    }
    None
}
