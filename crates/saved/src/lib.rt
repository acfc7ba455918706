// A saved block: where its six bytes begin, and what they say in a direction.
#![tactic(auto)]

ghost use Rattle.std.specs.Prelude.{◌≡◌, true, false, ◌+◌, ◌≤◌, ◌<◌, length, IfSome};
ghost use Rattle.mv.specs.Projection.{past_range};
ghost use Rattle.tile.specs.Tiles.{geometry};
ghost use Rattle.project.specs.Project.{saved_at, saved_ref, saved_mv};
ghost use Rattle.project.specs.Tested.{block_fine};
ghost use Rattle.saved.specs.Code.{part_at, saved_of};

use levels::Mv;
use tile::Tile;

/// A saved block in one direction, where it has a reference and a vector there.
#[derive(Clone, Copy)]
pub struct Block {
    /// The saved reference, 0 to 6: a place in the lists of a source.
    pub reference: usize,
    /// Its vector, of components within ±65,535.
    pub mv: Mv,
}

/// The block whose six bytes begin at `at`.
// The direction is an index, of the block's two vectors and two references. `checks` tests the bytes as they stand: this reads what that has let through.
pub fn block_at(part: &[i8], at: usize, dir: usize) -> Option<Block>
    requires inside { at + 6 ≤ length part.now }
    requires direction { dir < 2 }
    requires fine { block_fine (saved_ref part.now at dir) (saved_mv part.now at dir) ≡ true }
    ensures block { result ≡ saved_of (saved_ref part.now at dir) (saved_mv part.now at dir) }
    ensures reference { IfSome result (λ b. b.reference < 7) }
    ensures vector { IfSome result (λ b. past_range b.mv ≡ false) }
{
    // Tried by `.ok()?`: the laws of an index speak of the `Result`, and the proof didn't close.
    let Ok(reference) = usize::try_from(part[at + 4 + dir]) else {
        return None;
    };
    let y = part[at + 2 * dir];
    if y == -128 {
        return None;
    }
    let x = part[at + 2 * dir + 1];
    let vy = mv::dequantize_mv_comp(i32::from(y));
    let vx = mv::dequantize_mv_comp(i32::from(x));
    Some(Block {
        reference,
        mv: Mv { y: vy, x: vx },
    })
}

/// Where the tile's rows begin in the plane of slot `n`.
#[tactic(auto, unfolding(project::specs::Project::saved_at))]
pub fn rows_at(t: &Tile, n: usize) -> usize
    requires { n < 7 }
    ensures { result ≡ saved_at (geometry t.now) n t.now.top 0 }
{
    6 * ((n * t.high + t.top) * t.stride)
}

/// Where the six bytes of a block begin, from the tile's first row.
#[tactic(auto, unfolding(crate::specs::Code::part_at))]
pub fn saved_at(t: &Tile, y: usize, x: usize) -> usize
    requires top { t.now.top ≤ y }
    requires bottom { y < t.now.bottom }
    requires column { x < t.now.wide }
    ensures { result ≡ part_at (geometry t.now) y x }
{
    6 * ((y - t.top) * t.stride + x)
}
