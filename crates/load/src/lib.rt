// What a load of a tile is asked for. The load's definitions are in specs/.
#![tactic(auto)]

/// What a load of a tile is asked for, besides the frame's setup and the saved planes.
/// Columns and rows are counted in cells of 8 x 8 pixels, and an end is not included.
// Setup and planes stand beside it as parameters, and the three are no struct: the single tests and the passes take one or two of them, and the entry for C has them apart.
// Starts and ends, and no Range of both: a Range is not Copy, and this goes down by value.
#[derive(Clone, Copy)]
pub struct Asked {
    /// Whole-frame mode: the field has a row for each row of the frame, and not those of one superblock row.
    pub whole_frame: bool,
    /// Trajectories are kept.
    pub traj: bool,
    /// The holes of the field are filled where the frame has a TIP mode.
    pub holes: bool,
    pub col_start: usize,
    pub col_end: usize,
    pub row_start: usize,
    pub row_end: usize,
}
