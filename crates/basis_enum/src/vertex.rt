// Vertices with their masks.
use frac128::Frac;

/// A vertex of a polytope: the set of its variables that are zero, and its values.
#[derive(Debug, Drop)]
pub struct Vertex {
    /// Bit v - 1 is set exactly where variable v is zero; variables 65 to 128 have the second word.
    pub mask: [u64; 2],
    /// The values of the system's nonbasic variables, in their order.
    pub point: Vec<Frac>,
}

/// The vertices of a system other than the point in which all its nonbasic variables are zero.
#[derive(Debug, Drop)]
pub struct Vertices {
    /// How many bases were reached.
    pub bases: u64,
    /// The vertices, each once, ascending by their masks as numbers of 128 bits.
    pub list: Vec<Vertex>,
}
