//! Identifiers.

ghost use Rattle.std.specs.Prelude.{◌≡◌, take, length};
ghost use Rattle.rec_bytes.specs.Views.{view};
ghost use Rattle.mxf_names.specs.Identifiers.{AreIds, ids_of, named_id, set_id, umid};

use crate::labels::UMID_HEAD;
use rec_bytes::{Config, put_bytes, put_u64};
use uuid::Uuid;

/// The identifiers that the sets of a take carry.
#[derive(Clone, Copy, Debug, PartialEq, Eq)]
pub struct Ids {
    /// The take's own, which is the material package's.
    pub take: [u8; 16],
    /// The file package's.
    pub file: [u8; 16],
    /// How the identifiers of the metadata sets begin.
    pub sets: [u8; 8],
    /// How the identifiers of the index table segments begin.
    pub index: [u8; 8],
}

impl Ids {
    /// The identifiers of a configuration's take.
    #[tactic(auto, unfolding(crate::specs::Identifiers::ids_of))]
    pub fn new(cfg: &Config) -> Ids
        ensures { result ≡ ids_of (view cfg.now) }
    {
        Ids {
            take: cfg.take_id,
            file: named(&cfg.take_id, b"file"),
            sets: front(&named(&cfg.take_id, b"sets")),
            index: front(&named(&cfg.take_id, b"index")),
        }
    }
}

/// The version 5 identifier of a name in a take's namespace.
#[tactic(auto, unfolding(crate::specs::Identifiers::named_id))]
fn named(take_id: &[u8; 16], name: &[u8]) -> [u8; 16]
    ensures { result ≡ named_id take_id.now name.now }
{
    Uuid::new_v5(&Uuid::from_bytes(*take_id), name).into_bytes()
}

fn front(id: &[u8; 16]) -> [u8; 8]
    ensures { result ≡ take 8 id.now }
{
    let mut first = [0; 8];
    first.copy_from_slice(&id[..8]);
    first
}

/// The identifier of the set with a number.
pub fn set_id(ids: &Ids, number: u64) -> [u8; 16]
    ensures { result ≡ set_id ids.now number }
{
    show_sizes(ids);
    let mut id = [0; 16];
    put_bytes(&mut id, 0, &ids.sets);
    put_u64(&mut id, 8, number);
    id
}

/// The unique material identifier that ends with an identifier.
pub fn umid(identifier: &[u8; 16]) -> [u8; 32]
    ensures { result ≡ umid identifier.now }
{
    let mut id = [0; 32];
    id[..16].copy_from_slice(&UMID_HEAD);
    id[16..].copy_from_slice(identifier);
    id
}

/// Shows the sizes that the identifiers' types keep. It does nothing when it runs.
pub fn show_sizes(ids: &Ids)
    ensures { AreIds ids.now }
{
    show_lengths(&ids.take, &ids.file, &ids.sets, &ids.index);
}

fn show_lengths(take: &[u8; 16], file: &[u8; 16], sets: &[u8; 8], index: &[u8; 8])
    ensures take { length take.now ≡ 16 }
    ensures file { length file.now ≡ 16 }
    ensures sets { length sets.now ≡ 8 }
    ensures index { length index.now ≡ 8 }
{}
