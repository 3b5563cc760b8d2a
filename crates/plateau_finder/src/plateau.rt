use road_model::{Items, Vertex};

/// The vertices inside both balls that one walk leads through, by three of them and a length.
#[derive(Clone, Copy, Debug, PartialEq, Eq)]
pub struct Plateau {
    /// The one nearest to the source.
    pub first: Vertex,
    /// The one nearest to the target.
    pub last: Vertex,
    /// The one of the lowest number. It names the walk.
    pub least: Vertex,
    /// How far it is from `first` to `last`.
    pub length: u64,
}

/// Plateaus, by rising `least`.
pub type PlateauList = Items<Plateau>;
