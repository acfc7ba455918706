// The types of levels.rs that the motion field is made of, and why a call is refused.
#![tactic(auto)]

ghost use Rattle.std.specs.Prelude.{◌≡◌, ◌<◌};
ghost use Rattle.levels.specs.Answer.{number_of, refused_if};
ghost use Rattle.levels.specs.Slots.{slot};

use std::fmt;

/// A motion vector, y first. It is empty where y is `INVALID_MV`; (0, 0) is a still cell.
// No type of vectors that are in range, or not empty: the store's lists hold any numbers, and the definitions make vectors, so that each would carry a proof. Functions
// ask for it (`past_range`, `is_empty`). A read answers an Option where an empty one is a case of its own (`Pairs::cell`, `Field::cell`), else the vector.
#[repr(C)]
#[derive(Clone, Copy, PartialEq, Eq, Debug)]
pub struct Mv {
    pub y: i32,
    pub x: i32,
}

/// The y of the empty vector, which is written with x = 0.
pub const INVALID_MV: i32 = 0x20_0000;

impl Mv {
    /// The empty vector as it is written.
    pub const EMPTY: Mv = Mv {
        y: INVALID_MV,
        x: 0,
    };
}

/// A packed vector: two codes with their signs. Both bytes -128 (hex 8080) is the mark.
#[derive(Clone, Copy, PartialEq, Eq, Debug)]
pub struct QMv {
    pub y: i8,
    pub x: i8,
}

impl QMv {
    /// The mark, which unpacks to the empty vector.
    pub const MARK: QMv = QMv { y: -128, x: -128 };
}

/// A reference slot, 0 to 6: who takes one tests it. It is no order hint.
// No type of 0 to 6 alone (`TryFrom<u8>`, a ghost field): it stands in the records that C hands over, in which it may be any byte, and a load tests those.
// Nor a second type of tested slots beside it: the definitions make slots and lists of slots, and would carry a proof for each, and each picked slot goes into a
// record of C's again. So functions ask for `s.0 < 7`, and those that take an index for `n < 7`.
#[repr(C)]
#[derive(Clone, Copy, PartialEq, Eq, Debug)]
pub struct Slot(pub u8);

impl Slot {
    /// The slot as an index of an array. No other function makes an index of a slot.
    pub fn index(self) -> usize
        ensures { result ≡ self.0 }
    {
        usize::from(self.0)
    }

    /// The slot of an index. No other function makes a slot of an index.
    pub fn from_index(i: usize) -> Slot
        requires { i < 256 }
        ensures { result ≡ slot i }
    {
        // `as`, as no From goes from usize to u8.
        Slot(i as u8)
    }
}

/// An order hint, 0 to 255. It is no slot.
#[repr(C)]
#[derive(Clone, Copy, PartialEq, Eq, Debug)]
pub struct OrderHint(pub u8);

/// Why a call is refused: the first of its tests that fails, in the numbers' order, 3 to 8 for a setup and 9 to 12 for a load. A refused call has
/// changed nothing; `loads::load_frame`, a call for each tile, leaves what the calls before the refused one have loaded.
#[derive(Clone, Copy, PartialEq, Eq, Debug)]
pub enum Refusal {
    /// 1: a component past ±65,535, crossed bounds, or a factor past ±507,904.
    VectorOutOfRange = 1,
    /// 2: exactly one byte of a packed vector is -128.
    HalfMark = 2,
    /// 3: hint bits above 8.
    TooManyBits = 3,
    /// 4: more than seven slots in use.
    TooManySlots = 4,
    /// 5: a superblock code above 2.
    BadSuperblock = 5,
    /// 6: a sample step that is not 1 or 2.
    BadStep = 6,
    /// 7: a width or height that is not 1 to 65,536.
    BadSize = 7,
    /// 8: a TIP slot that is not a slot in use, where the setup looks at the TIP pair.
    BadTipSlot = 8,
    /// 9: a setup out of its ranges.
    SetupOutOfRange = 9,
    /// 10: columns or rows that are no tile's.
    TileOutOfRange = 10,
    /// 11: planes, or a list of the store, shorter than stated.
    TooShort = 11,
    /// 12: a saved block of the superblock row, or a trajectory, out of range.
    ContentsOutOfRange = 12,
}

impl Refusal {
    /// The refusal's number, 1 to 12: what the entries for C answer, where 0 is no refusal.
    pub fn number(self) -> u8
        ensures { result ≡ number_of self }
    {
        // `as`: the From below is made of this function.
        self as u8
    }
}

/// What a test answers: its refusal where what is tested is bad.
pub fn refused_if(bad: bool, why: Refusal) -> Result<(), Refusal>
    ensures { result ≡ refused_if bad why }
{
    if bad {
        return Err(why);
    }
    Ok(())
}

impl From<Refusal> for u8 {
    ghost from_gives = { λ r n. n ≡ number_of r };

    fn from(refusal: Refusal) -> u8 {
        refusal.number()
    }
}

impl From<Refusal> for u32 {
    ghost from_gives = { λ r n. n ≡ number_of r };

    fn from(refusal: Refusal) -> u32 {
        u32::from(refusal.number())
    }
}

impl fmt::Display for Refusal {
    fn fmt<W: fmt::Write>(&self, f: &mut fmt::Formatter<W>) -> fmt::Result {
        f.write_str(match self {
            Refusal::VectorOutOfRange => {
                "a component past ±65535, bounds crossed, or a factor past ±507904"
            }
            Refusal::HalfMark => "exactly one byte of a packed vector is -128",
            Refusal::TooManyBits => "hint bits above 8",
            Refusal::TooManySlots => "more than 7 slots in use",
            Refusal::BadSuperblock => "superblock code above 2",
            Refusal::BadStep => "sample step not 1 or 2",
            Refusal::BadSize => "width or height not 1 to 65536",
            Refusal::BadTipSlot => "a TIP slot that is not a slot in use",
            Refusal::SetupOutOfRange => "a setup out of its ranges",
            Refusal::TileOutOfRange => "columns or rows that are no tile's",
            Refusal::TooShort => "planes, or a list of the store, shorter than stated",
            Refusal::ContentsOutOfRange => {
                "a saved block of the superblock row, or a trajectory, out of range"
            }
        })
    }
}
