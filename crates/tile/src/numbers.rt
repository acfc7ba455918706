ghost use Rattle.tile.specs.Geometry.{geometry_of};
ghost use Rattle.tile.specs.Sound.{Sound};

/// The numbers of a load: how the store is laid out, and which tile is loaded. Counted in cells
/// of 8 pixels; in brackets the letter of the format's text, or the name in refmvs.rs.
#[repr(C)]
#[derive(Clone, Copy)]
pub struct Tile {
    /// A superblock's side (S).
    pub side: usize,
    /// A block's side (B).
    pub block: usize,
    /// How far a projection may leave its block sideways (mfmv_edge).
    pub edge: usize,
    /// Every step-th row and column is sampled (tmvp_sample_step).
    pub step: usize,
    /// The frame's width (W).
    pub wide: usize,
    /// The frame's height (H).
    pub high: usize,
    /// The length of a row of the store.
    pub stride: usize,
    /// Where the superblock row begins in the field (poffset).
    pub offset: usize,
    /// The tile's first column.
    pub left: usize,
    /// The end of its columns, not included.
    pub right: usize,
    /// Its first row.
    pub top: usize,
    /// The end of its rows, not included: cut at the frame's end.
    pub bottom: usize,
    /// The numbers fit together, as those of an accepted call do.
    ghost sound: { Sound (geometry_of side block edge step wide high stride offset left right top bottom) },
}
