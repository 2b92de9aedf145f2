//! The items of each set, as `specs/Sets.antt` lists them.

ghost use Rattle.std.specs.Prelude.{◌≡◌, ◌+◌, ◌^◌, ◌<◌, length};
ghost use Rattle.local_sets.specs.Sets.{items_bytes};
ghost use Rattle.rec_bytes.specs.Views.{view};
ghost use Rattle.mxf_metadata.specs.Sets.{own_id, preface, identification, content_storage, essence_container};
ghost use Rattle.mxf_metadata.specs.Sets.{material_package, file_package, track, sequence, timecode, source_clip, descriptor};

use crate::labels::{PICTURE_KIND, PICTURE_TRACK_ID, PRODUCT, TIMECODE_KIND};
use crate::lengths::*;
use crate::pictures::{aspect_ratio, coding_label, frame_layout, stored_height, timecode_base};
use crate::tags::*;
use local_sets::{Item, Value};
use mxf_names::{
    BODY_SID, ESSENCE_CONTAINER_LABEL, ESSENCE_STREAM, INDEX_SID, INDEX_STREAM, INSTANCE_ID, Ids,
    OPERATIONAL_PATTERN_1A, edit_rate, set_id, show_sizes, umid,
};
use rec_bytes::Config;

/// No date.
const NO_DATE: Value = Value::Long(0);

/// The identifier that each set begins with.
fn own_id(ids: &Ids, number: u64) -> Item
    ensures { result ≡ own_id ids.now number }
{
    Item::new(INSTANCE_ID, Value::Label(set_id(ids, number)))
}

/// The preface, set 1.
#[tactic(auto, unfolding(crate::specs::Sets::preface))]
pub fn preface(ids: &Ids) -> [Item; 9]
    ensures is { result ≡ preface ids.now }
    ensures sized { length (items_bytes result) ≡ PREFACE_ITEMS }
{
    show_sizes(ids);
    [
        own_id(ids, 1),
        Item::new(LAST_MODIFIED, NO_DATE),
        Item::new(VERSION, Value::Short(0x0103)),
        Item::new(OBJECT_MODEL_VERSION, Value::Word(1)),
        Item::new(CONTENT_STORAGE, Value::Label(set_id(ids, 3))),
        Item::new(IDENTIFICATIONS, Value::BatchOfOne(set_id(ids, 2))),
        Item::new(OPERATIONAL_PATTERN, Value::Label(OPERATIONAL_PATTERN_1A)),
        Item::new(
            ESSENCE_CONTAINERS,
            Value::BatchOfOne(ESSENCE_CONTAINER_LABEL),
        ),
        Item::new(DM_SCHEMES, Value::EmptyBatch),
    ]
}

/// The identification, set 2.
#[tactic(auto, unfolding(crate::specs::Sets::identification))]
pub fn identification(ids: &Ids) -> [Item; 7]
    ensures is { result ≡ identification ids.now }
    ensures sized { length (items_bytes result) ≡ IDENTIFICATION_ITEMS }
{
    show_sizes(ids);
    [
        own_id(ids, 2),
        Item::new(THIS_GENERATION_ID, Value::Label(set_id(ids, 2))),
        Item::new(COMPANY_NAME, Value::Text(*b"ingest\0\0\0\0\0\0\0\0\0\0", 6)),
        Item::new(PRODUCT_NAME, Value::Text(*b"ingest_server\0\0\0", 13)),
        Item::new(
            VERSION_STRING,
            Value::Text(*b"1\0\0\0\0\0\0\0\0\0\0\0\0\0\0\0", 1),
        ),
        Item::new(PRODUCT_ID, Value::Label(PRODUCT)),
        Item::new(MODIFICATION_DATE, NO_DATE),
    ]
}

/// The content storage, set 3.
#[tactic(auto, unfolding(crate::specs::Sets::content_storage))]
pub fn content_storage(ids: &Ids) -> [Item; 3]
    ensures is { result ≡ content_storage ids.now }
    ensures sized { length (items_bytes result) ≡ STORAGE_ITEMS }
{
    show_sizes(ids);
    [
        own_id(ids, 3),
        Item::new(PACKAGES, Value::BatchOfTwo(set_id(ids, 5), set_id(ids, 12))),
        Item::new(ESSENCE_CONTAINER_DATA, Value::BatchOfOne(set_id(ids, 4))),
    ]
}

/// The essence container data, set 4.
#[tactic(auto, unfolding(crate::specs::Sets::essence_container))]
pub fn essence_container(ids: &Ids) -> [Item; 4]
    ensures is { result ≡ essence_container ids.now }
    ensures sized { length (items_bytes result) ≡ CONTAINER_ITEMS }
{
    show_sizes(ids);
    [
        own_id(ids, 4),
        Item::new(LINKED_PACKAGE_ID, Value::Umid(umid(&ids.file))),
        Item::new(INDEX_SID, Value::Word(INDEX_STREAM)),
        Item::new(BODY_SID, Value::Word(ESSENCE_STREAM)),
    ]
}

/// The material package, set 5.
#[tactic(auto, unfolding(crate::specs::Sets::material_package))]
pub fn material_package(ids: &Ids) -> [Item; 5]
    ensures is { result ≡ material_package ids.now }
    ensures sized { length (items_bytes result) ≡ MATERIAL_ITEMS }
{
    show_sizes(ids);
    [
        own_id(ids, 5),
        Item::new(PACKAGE_ID, Value::Umid(umid(&ids.take))),
        Item::new(PACKAGE_MODIFIED, NO_DATE),
        Item::new(PACKAGE_CREATED, NO_DATE),
        Item::new(TRACKS, Value::BatchOfTwo(set_id(ids, 6), set_id(ids, 9))),
    ]
}

/// The file package, set 12.
#[tactic(auto, unfolding(crate::specs::Sets::file_package))]
pub fn file_package(ids: &Ids) -> [Item; 6]
    ensures is { result ≡ file_package ids.now }
    ensures sized { length (items_bytes result) ≡ FILE_ITEMS }
{
    show_sizes(ids);
    [
        own_id(ids, 12),
        Item::new(PACKAGE_ID, Value::Umid(umid(&ids.file))),
        Item::new(PACKAGE_MODIFIED, NO_DATE),
        Item::new(PACKAGE_CREATED, NO_DATE),
        Item::new(TRACKS, Value::BatchOfTwo(set_id(ids, 13), set_id(ids, 16))),
        Item::new(DESCRIPTOR, Value::Label(set_id(ids, 19))),
    ]
}

/// A track.
#[tactic(auto, unfolding(crate::specs::Sets::track))]
pub fn track(cfg: &Config, ids: &Ids, number: u64, track_id: u32, track_number: u32) -> [Item; 6]
    requires { number < 2 ^ 32 }
    ensures is { result ≡ track (view cfg.now) ids.now number track_id track_number }
    ensures sized { length (items_bytes result) ≡ TRACK_ITEMS }
{
    show_sizes(ids);
    let rate = edit_rate(cfg.rate);
    [
        own_id(ids, number),
        Item::new(TRACK_ID, Value::Word(track_id)),
        Item::new(TRACK_NUMBER, Value::Word(track_number)),
        Item::new(EDIT_RATE, Value::Ratio(rate.0, rate.1)),
        Item::new(ORIGIN, Value::Long(0)),
        Item::new(SEQUENCE, Value::Label(set_id(ids, number + 1))),
    ]
}

/// A sequence of one component.
#[tactic(auto, unfolding(crate::specs::Sets::sequence))]
pub fn sequence(ids: &Ids, number: u64, kind: &[u8; 16], frames: Option<u64>) -> [Item; 4]
    requires { number < 2 ^ 32 }
    ensures is { result ≡ sequence ids.now number kind.now frames }
    ensures sized { length (items_bytes result) ≡ SEQUENCE_ITEMS }
{
    show_sizes(ids);
    [
        own_id(ids, number),
        Item::new(DATA_DEFINITION, Value::Label(*kind)),
        Item::new(DURATION, Value::Duration(frames)),
        Item::new(
            STRUCTURAL_COMPONENTS,
            Value::BatchOfOne(set_id(ids, number + 1)),
        ),
    ]
}

/// A timecode component.
#[tactic(auto, unfolding(crate::specs::Sets::timecode))]
pub fn timecode(cfg: &Config, ids: &Ids, number: u64, frames: Option<u64>) -> [Item; 6]
    requires { number < 2 ^ 32 }
    ensures is { result ≡ timecode (view cfg.now) ids.now number frames }
    ensures sized { length (items_bytes result) ≡ TIMECODE_ITEMS }
{
    show_sizes(ids);
    [
        own_id(ids, number),
        Item::new(DATA_DEFINITION, Value::Label(TIMECODE_KIND)),
        Item::new(DURATION, Value::Duration(frames)),
        Item::new(START_TIMECODE, Value::Long(u64::from(cfg.start))),
        Item::new(ROUNDED_TIMECODE_BASE, Value::Short(timecode_base(cfg.rate))),
        Item::new(DROP_FRAME, Value::Byte(cfg.drop)),
    ]
}

/// A source clip.
#[tactic(auto, unfolding(crate::specs::Sets::source_clip))]
pub fn source_clip(
    ids: &Ids,
    number: u64,
    frames: Option<u64>,
    source: &[u8; 32],
    track_id: u32,
) -> [Item; 6]
    requires { number < 2 ^ 32 }
    ensures is { result ≡ source_clip ids.now number frames source.now track_id }
    ensures sized { length (items_bytes result) ≡ CLIP_ITEMS }
{
    show_sizes(ids);
    [
        own_id(ids, number),
        Item::new(DATA_DEFINITION, Value::Label(PICTURE_KIND)),
        Item::new(DURATION, Value::Duration(frames)),
        Item::new(START_POSITION, Value::Long(0)),
        Item::new(SOURCE_PACKAGE_ID, Value::Umid(*source)),
        Item::new(SOURCE_TRACK_ID, Value::Word(track_id)),
    ]
}

/// The picture descriptor, set 19.
#[tactic(auto, unfolding(crate::specs::Sets::descriptor))]
pub fn descriptor(cfg: &Config, ids: &Ids, frames: Option<u64>) -> [Item; 12]
    ensures is { result ≡ descriptor (view cfg.now) ids.now frames }
    ensures sized { length (items_bytes result) ≡ DESCRIPTOR_ITEMS }
{
    show_sizes(ids);
    cfg.ranges();
    let rate = edit_rate(cfg.rate);
    let aspect = aspect_ratio(cfg);
    [
        own_id(ids, 19),
        Item::new(LINKED_TRACK_ID, Value::Word(PICTURE_TRACK_ID)),
        Item::new(SAMPLE_RATE, Value::Ratio(rate.0, rate.1)),
        Item::new(CONTAINER_DURATION, Value::Duration(frames)),
        Item::new(ESSENCE_CONTAINER, Value::Label(ESSENCE_CONTAINER_LABEL)),
        Item::new(
            PICTURE_ESSENCE_CODING,
            Value::Label(coding_label(cfg.coding)),
        ),
        Item::new(FRAME_LAYOUT, Value::Byte(frame_layout(cfg))),
        Item::new(STORED_WIDTH, Value::Word(u32::from(cfg.width))),
        Item::new(STORED_HEIGHT, Value::Word(stored_height(cfg))),
        Item::new(ASPECT_RATIO, Value::Ratio(aspect.0, aspect.1)),
        Item::new(COMPONENT_DEPTH, Value::Word(10)),
        Item::new(HORIZONTAL_SUBSAMPLING, Value::Word(2)),
    ]
}
