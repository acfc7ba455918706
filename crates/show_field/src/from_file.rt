//! The field of a file: its planes and tile columns, and the loads from an empty store.
ghost use Rattle.std.specs.Prelude.{◌≡◌, ◌≤◌, length, replicate};
ghost use Rattle.levels.specs.Answer.{refusal_of};
ghost use Rattle.field.specs.Lent.{IsSameField};
ghost use Rattle.loads.specs.Frame.{frame_calls, until_refused};
ghost use Rattle.show_field.specs.Shown.{columns_of, file_frame, end_of, empty_store, loaded_of, HasField};

use field::Field;
use frame::Frame;
use levels::Refusal;
use store::Pairs;

/// N, the number of tile columns.
pub fn columns_of(file: &[u8]) -> usize
    requires { 103 ≤ length file.now }
    ensures value { result ≡ columns_of file.now }
    ensures most { result ≤ 255 }
{
    usize::from(file[102])
}

/// An array of equal elements. A function of its own: proofs take them from its contract, and need not work out a large array.
pub fn filled<T: Copy, const N: usize>(value: T) -> [T; N]
    ensures elements { result ≡ replicate N value }
    ensures long { N ≡ length result }
{
    [value; N]
}

// The loads of all tiles, from an empty store.
fn load_tiles(
    field: &mut Field<'_>,
    planes: &[i8],
    setup: &Frame,
    traj: bool,
    holes: bool,
    ends: &[usize],
) -> Result<(), Refusal>
    requires height { setup.now.height ≤ 65536 }
    requires empty { HasField field.old empty_store }
    ensures same_field { IsSameField field.new field.old }
    ensures refusal { refusal_of result ≡ (until_refused (frame_calls setup.now traj holes planes.now ends.now) empty_store).number }
    ensures loaded { HasField field.new (until_refused (frame_calls setup.now traj holes planes.now ends.now) empty_store).store }
{
    let mut traj_y = [levels::INVALID_MV; 57344];
    let mut traj_x = [0i32; 57344];
    let mut map_y = [-128i8; 172032];
    let mut map_x = [-128i8; 172032];
    let mut trajectories = Pairs {
        y: &mut traj_y,
        x: &mut traj_x,
    };
    let mut maps = Pairs {
        y: &mut map_y,
        x: &mut map_x,
    };
    loads::load_frame(
        field,
        &mut trajectories,
        &mut maps,
        planes,
        setup,
        traj,
        holes,
        ends,
    )
}

/// Loads the field of a file that is long enough.
pub fn load_field(file: &[u8], setup: &Frame, field: &mut Field<'_>) -> Result<(), Refusal>
    requires frame { setup.now ≡ file_frame file.now }
    requires width { setup.now.width ≤ 2048 }
    requires height { setup.now.height ≤ 2048 }
    requires long { end_of file.now ≤ length file.now }
    requires empty { HasField field.old empty_store }
    ensures same_field { IsSameField field.new field.old }
    ensures refusal { refusal_of result ≡ (loaded_of file.now).number }
    ensures loaded { HasField field.new (loaded_of file.now).store }
{
    let n = columns_of(file);
    let mut ends = [0usize; 255];
    framefile::read_ends(file, n, &mut ends);
    let present = framefile::present_of(file);
    // Seven planes of 256 x 256 blocks.
    let mut planes: [i8; 2752512] = filled(0);
    framefile::put_planes(
        file,
        present,
        n,
        checks::wide_of(setup),
        checks::high_of(setup),
        checks::stride_of(setup),
        &mut planes,
    );
    let traj = file[100] != 0;
    let holes = file[101] != 0;
    load_tiles(field, &planes, setup, traj, holes, &ends[..n])
}
