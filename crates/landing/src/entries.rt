ghost use Rattle.std.specs.Prelude.{◌<◌};
ghost use Rattle.landing.specs.Entries.{IsLinked};

use entry::Source;

/// What a source says of one of the references that were saved with its slot.
#[derive(Clone, Copy)]
pub struct Entry<'a> {
    /// The source.
    pub source: &'a Source,
    /// The saved reference: a place in the source's lists.
    pub reference: usize,
    /// It is one of seven.
    ghost low: { reference < 7 },
}

/// An entry of which trajectories can be made: what they need of the source is in range.
#[derive(Clone, Copy)]
pub struct LinkedEntry<'a> {
    /// The entry.
    pub entry: Entry<'a>,
    /// Its slots are the store's, and the factor from the one to the other is in range.
    ghost linked: { IsLinked entry.source.now entry.reference },
}
