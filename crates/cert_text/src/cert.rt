// Certificates: what shows the total and the bound of a solution.
use crate::JournalLines;
use item_list::ItemList;
use match_bound::Perm;
use pair_rows::Row;
use tri_check::Uid;

/// What shows the total and the bound of a solution.
#[derive(Debug, Drop)]
pub struct Cert {
    /// 1 to 3. It says which formulas the rows speak of, and from 3 on copies are counted apart from inputs.
    pub version: u32,
    pub uid: Uid,
    pub inputs: u32,
    /// How often inputs count, which is once each for versions 1 and 2.
    pub copies: u32,
    /// The total at first.
    pub opening: u128,
    /// The total of the solution.
    pub total: u128,
    /// No plan's total is below it.
    pub bound: u64,
    /// What led from the opening to the solution.
    pub journal: JournalLines,
    pub rows: RowList,
    /// What each copy goes to.
    pub perm: Perm,
}

/// A list of rows.
pub type RowList = ItemList<Row>;
