//! What is true of every closed file of the layout.

ghost use Rattle.std.specs.Prelude.{◌≡◌, ℕ, List, length};
ghost use Rattle.klv.specs.Items.{AreItems};
ghost use Rattle.rec_bytes.specs.Configuration.{Fields};
ghost use Rattle.rec_bytes.specs.Ranges.{IsInRange};
ghost use Rattle.take_layout.specs.Takes.{AreUnits};
ghost use Rattle.mxf_take_file.specs.Items.{closed_items};
ghost use Rattle.mxf_take_file.specs.Layout.{closed, is_unit};
ghost use Rattle.mxf_op1a.specs.Op1a.{IsOp1a, units_in};
ghost use Rattle.mxf_take_op1a.specs.Take.{AreStreamsNamed, HoldLinks, SaysDurations, IsUnknown, NamesTake, take_file};

use mxf_index::segments_are_read_back;
use mxf_metadata::metadata_holds;
use mxf_partitions::packs_read_back;

/// The closed file of a take is an OP1a file of the take's units, and what the layout makes it of are items whose elements
/// have these units. It does nothing: its clauses are the law.
pub fn closed_files_are_op1a()
    ensures file { (cfg : Fields) (units : List (List ℕ)) → IsInRange cfg → AreUnits (is_unit cfg) cfg.max_frames units
        → IsOp1a (closed cfg units) units }
    ensures items { (cfg : Fields) (units : List (List ℕ)) → IsInRange cfg → AreUnits (is_unit cfg) cfg.max_frames units
        → AreItems (closed cfg units) (closed_items cfg units) }
    ensures units { (cfg : Fields) (units : List (List ℕ)) → IsInRange cfg → AreUnits (is_unit cfg) cfg.max_frames units
        → units_in (closed_items cfg units) ≡ units }
{
    packs_read_back();
    segments_are_read_back();
    metadata_holds();
}

/// The closed file of a take names its take in header and footer, doesn't know in its header how long it is, as it was
/// written before the first unit, names the streams of essence and of index tables, and its sets name sets of the kinds that
/// are due. It does nothing: its clauses are the law.
pub fn closed_files_name_their_take()
    ensures take { (cfg : Fields) (units : List (List ℕ)) → IsInRange cfg → AreUnits (is_unit cfg) cfg.max_frames units
        → NamesTake cfg.take_id (take_file cfg units) }
    ensures unknown { (cfg : Fields) (units : List (List ℕ)) → IsInRange cfg → AreUnits (is_unit cfg) cfg.max_frames units
        → IsUnknown (take_file cfg units) }
    ensures lasting { (cfg : Fields) (units : List (List ℕ)) → IsInRange cfg → AreUnits (is_unit cfg) cfg.max_frames units
        → SaysDurations (length units) (take_file cfg units) }
    ensures streams { (cfg : Fields) (units : List (List ℕ)) → IsInRange cfg → AreUnits (is_unit cfg) cfg.max_frames units
        → AreStreamsNamed (take_file cfg units) }
    ensures linked { (cfg : Fields) (units : List (List ℕ)) → IsInRange cfg → AreUnits (is_unit cfg) cfg.max_frames units
        → HoldLinks (take_file cfg units) }
{
    packs_read_back();
    segments_are_read_back();
    metadata_holds();
}
