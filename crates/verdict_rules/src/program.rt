use sv_items::Items;
use swift_core::{CoreMember, Table};

/// A checked program.
#[derive(Drop)]
pub struct Program {
    /// Its declarations and keys.
    pub table: Table,
    /// The default of the built-in environment key, and then the code of each member of the table, in order.
    pub members: Items<CoreMember>,
}
