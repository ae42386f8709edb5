// Games in either form.
use crate::table::Table;
use crate::tree::Tree;

/// A game, as a table or as a tree.
#[derive(Debug, Drop)]
pub enum Game {
    /// A game in strategic form.
    Strategic(Table),
    /// A game in extensive form.
    Extensive(Tree),
}
