use crate::text::Text;
use sv_items::Items;

/// The names that values and paths are printed with.
#[derive(Drop)]
pub struct Names {
    /// The name of each view.
    pub views: Items<Text>,
    /// The name of each kind of struct and enum.
    pub kinds: Items<Text>,
    /// The names of the fields of each kind, in order.
    pub fields: Items<Items<Text>>,
    /// The names of the cases of each kind, in order.
    pub cases: Items<Items<Text>>,
    /// The names of the slots of each view, in order.
    pub slots: Items<Items<Text>>,
}
