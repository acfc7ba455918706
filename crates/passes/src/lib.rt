// The passes of a load, one entry each, for the comparison with the Rust and for timing alone: they are no part of the library.
// An entry is lent what its pass requires; only `load_tmvs` tests that, and the oracle lends nothing else. So is a tile whose numbers
// fit together, as its type says.
// The lists come one by one, each a pointer and a length in C, and each entry joins those that belong together: the C interface.
#![tactic(auto)]

ghost use Rattle.std.specs.Prelude.{◌≡◌, Bool, true, false, not, ◌&&◌, List, ◌+◌, ◌*◌, ◌≤◌, ◌<◌, negsuc, length, get_or};
ghost use Rattle.intops.specs.Choice.{eq_z};
ghost use Rattle.intops.specs.Bounds.{Within};
ghost use Rattle.store.specs.Store.{Store, pack, with_field, with_traj};
ghost use Rattle.store.specs.Program.{run};
ghost use Rattle.tile.specs.Layout.{row_cells};
ghost use Rattle.tile.specs.Owner.{owns};
ghost use Rattle.tile.specs.Sound.{FieldHeld, TrajHeld, MapHeld};
ghost use Rattle.tile.specs.Tiles.{geometry};
ghost use Rattle.field.specs.Field.{copy_above, empty_field, tip_projection, fill_holes, smoothen, fill_gap_proj};
ghost use Rattle.traj.specs.Traj.{empty_trajs, fill_gap_traj, check_traj_intersect};
ghost use Rattle.project.specs.Project.{project_source};
ghost use Rattle.project.specs.Tested.{source_in_range, row_fine};

use entry::Source;
use field::Field;
use intersect::Place;
use store::Pairs;
use tile::Tile;

/// Empties the tile's cells of the field.
#[unsafe(no_mangle)]
pub extern "C" fn pass_empty_field(field_y: &mut [i32], field_x: &mut [i32], t: Tile)
    requires y { t.offset + row_cells (geometry t) ≤ length field_y.old }
    requires x { t.offset + row_cells (geometry t) ≤ length field_x.old }
    ensures { (s : Store) → with_field s field_y.new field_x.new s.field_ref
        ≡ run (owns (geometry t)) (empty_field (geometry t)) (with_field s field_y.old field_x.old s.field_ref) }
{
    let mut field = Field {
        y: field_y,
        x: field_x,
        reference: &mut [],
    };
    field::empty_field(&mut field, &t);
}

/// Row mode: copies the three rows above the tile.
#[unsafe(no_mangle)]
pub extern "C" fn pass_copy_above(
    field_y: &mut [i32],
    field_x: &mut [i32],
    field_ref: &mut [u8],
    t: Tile,
)
    requires row_mode { t.offset ≡ 3 * t.stride }
    requires held { FieldHeld (geometry t) field_y.old field_x.old field_ref.old }
    ensures { (s : Store) → with_field s field_y.new field_x.new field_ref.new
        ≡ run (owns (geometry t)) (copy_above (geometry t)) (with_field s field_y.old field_x.old field_ref.old) }
{
    let mut field = Field {
        y: field_y,
        x: field_x,
        reference: field_ref,
    };
    field::copy_above(&mut field, &t);
}

/// Projects the field to the TIP distance.
#[unsafe(no_mangle)]
pub extern "C" fn pass_tip_projection(
    field_y: &mut [i32],
    field_x: &mut [i32],
    field_ref: &mut [u8],
    t: Tile,
    delta: i8,
)
    requires held { FieldHeld (geometry t) field_y.old field_x.old field_ref.old }
    ensures { (s : Store) → with_field s field_y.new field_x.new field_ref.new
        ≡ run (owns (geometry t)) (tip_projection (geometry t) delta) (with_field s field_y.old field_x.old field_ref.old) }
{
    let mut field = Field {
        y: field_y,
        x: field_x,
        reference: field_ref,
    };
    field::tip_projection(&mut field, &t, delta);
}

/// Fills the holes of the field.
#[unsafe(no_mangle)]
pub extern "C" fn pass_fill_holes(
    field_y: &mut [i32],
    field_x: &mut [i32],
    field_ref: &mut [u8],
    t: Tile,
    delta: i8,
)
    requires held { FieldHeld (geometry t) field_y.old field_x.old field_ref.old }
    ensures { (s : Store) → with_field s field_y.new field_x.new field_ref.new
        ≡ run (owns (geometry t)) (fill_holes (geometry t) delta) (with_field s field_y.old field_x.old field_ref.old) }
{
    let mut field = Field {
        y: field_y,
        x: field_x,
        reference: field_ref,
    };
    holes::fill_holes(&mut field, &t, delta);
}

/// Smooths the field.
#[unsafe(no_mangle)]
pub extern "C" fn pass_smoothen(
    field_y: &mut [i32],
    field_x: &mut [i32],
    field_ref: &mut [u8],
    t: Tile,
    delta: i8,
)
    requires held { FieldHeld (geometry t) field_y.old field_x.old field_ref.old }
    ensures { (s : Store) → with_field s field_y.new field_x.new field_ref.new
        ≡ run (owns (geometry t)) (smoothen (geometry t) delta) (with_field s field_y.old field_x.old field_ref.old) }
{
    let mut field = Field {
        y: field_y,
        x: field_x,
        reference: field_ref,
    };
    smooth::smoothen(&mut field, &t, delta);
}

/// With step 2: fills the gaps between the field's samples.
#[unsafe(no_mangle)]
pub extern "C" fn pass_fill_gap_proj(
    field_y: &mut [i32],
    field_x: &mut [i32],
    field_ref: &mut [u8],
    t: Tile,
)
    requires held { FieldHeld (geometry t) field_y.old field_x.old field_ref.old }
    requires step { t.step ≡ 2 }
    ensures { (s : Store) → with_field s field_y.new field_x.new field_ref.new
        ≡ run (owns (geometry t)) (fill_gap_proj (geometry t)) (with_field s field_y.old field_x.old field_ref.old) }
{
    let mut field = Field {
        y: field_y,
        x: field_x,
        reference: field_ref,
    };
    gaps::fill_gap_proj(&mut field, &t);
}

/// Empties the tile's trajectories and maps.
#[unsafe(no_mangle)]
pub extern "C" fn pass_empty_trajs(
    traj_y: &mut [i32],
    traj_x: &mut [i32],
    map_y: &mut [i8],
    map_x: &mut [i8],
    t: Tile,
)
    requires trajectories { TrajHeld (geometry t) traj_y.old traj_x.old }
    requires maps { MapHeld (geometry t) map_y.old map_x.old }
    ensures { (s : Store) → with_traj s traj_y.new traj_x.new map_y.new map_x.new
        ≡ run (owns (geometry t)) (empty_trajs (geometry t)) (with_traj s traj_y.old traj_x.old map_y.old map_x.old) }
{
    let mut trajectories = Pairs {
        y: traj_y,
        x: traj_x,
    };
    let mut maps = Pairs { y: map_y, x: map_x };
    traj::empty_trajs(&mut trajectories, &mut maps, &t);
}

/// With step 2: fills the gaps between the samples of slot `n`'s trajectories.
#[unsafe(no_mangle)]
pub extern "C" fn pass_fill_gap_traj(traj_y: &mut [i32], traj_x: &mut [i32], t: Tile, n: usize)
    requires slot { n < 7 }
    requires held { TrajHeld (geometry t) traj_y.old traj_x.old }
    requires step { t.step ≡ 2 }
    ensures { (s : Store) → with_traj s traj_y.new traj_x.new s.map_y s.map_x
        ≡ run (owns (geometry t)) (fill_gap_traj (geometry t) n) (with_traj s traj_y.old traj_x.old s.map_y s.map_x) }
{
    let mut trajectories = Pairs {
        y: traj_y,
        x: traj_x,
    };
    traj::fill_gap_traj(&mut trajectories, &t, n);
}

/// The trajectories of slots `a` and `b` through the cell (`y`, `x`) go on with the vector `mv`.
#[unsafe(no_mangle)]
pub extern "C" fn pass_check_traj_intersect(
    traj_y: &mut [i32],
    traj_x: &mut [i32],
    map_y: &mut [i8],
    map_x: &mut [i8],
    t: Tile,
    a: usize,
    b: usize,
    y: usize,
    x: usize,
    mv: levels::Mv,
)
    requires first { a < 7 }
    requires second { b < 7 }
    requires row { y < 8192 }
    requires column { x < t.stride }
    requires vector_y { Within 65535 mv.y }
    requires vector_x { Within 65535 mv.x }
    requires trajectories { TrajHeld (geometry t) traj_y.old traj_x.old }
    requires maps { MapHeld (geometry t) map_y.old map_x.old }
    ensures { (s : Store) → with_traj s traj_y.new traj_x.new map_y.new map_x.new
        ≡ run (owns (geometry t)) (check_traj_intersect (geometry t) a b y x mv) (with_traj s traj_y.old traj_x.old map_y.old map_x.old) }
{
    let mut trajectories = Pairs {
        y: traj_y,
        x: traj_x,
    };
    let mut maps = Pairs { y: map_y, x: map_x };
    intersect::check_traj_intersect(&mut trajectories, &mut maps, &t, a, b, Place { y, x }, mv);
}

/// Projects a source's saved blocks.
#[unsafe(no_mangle)]
pub extern "C" fn pass_project_source(
    field_y: &mut [i32],
    field_x: &mut [i32],
    field_ref: &mut [u8],
    traj_y: &mut [i32],
    traj_x: &mut [i32],
    map_y: &mut [i8],
    map_x: &mut [i8],
    planes: &[i8],
    t: Tile,
    traj: bool,
    present: bool,
    s: Source,
)
    requires source { source_in_range s ≡ true }
    requires planes { 6 * (7 * (t.high * t.stride)) ≤ length planes.now }
    requires fine { (not (eq_z s.ref2cur (negsuc 31)) && present) ≡ true → row_fine (geometry t) planes.now s ≡ true }
    requires field { FieldHeld (geometry t) field_y.old field_x.old field_ref.old }
    requires trajectories { TrajHeld (geometry t) traj_y.old traj_x.old }
    requires maps { MapHeld (geometry t) map_y.old map_x.old }
    ensures { (held : List Bool) → get_or held s.reference.0 false ≡ present
        → pack field_y.new field_x.new field_ref.new traj_y.new traj_x.new map_y.new map_x.new
        ≡ run (owns (geometry t)) (project_source (geometry t) traj held planes.now s)
        (pack field_y.old field_x.old field_ref.old traj_y.old traj_x.old map_y.old map_x.old) }
{
    let mut field = Field {
        y: field_y,
        x: field_x,
        reference: field_ref,
    };
    let mut trajectories = Pairs {
        y: traj_y,
        x: traj_x,
    };
    let mut maps = Pairs { y: map_y, x: map_x };
    source::project_source(
        &mut field,
        &mut trajectories,
        &mut maps,
        planes,
        &t,
        traj,
        present,
        &s,
    );
}
